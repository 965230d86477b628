ghost use Rattle.std.specs.Prelude.{◌≡◌};

use crate::answers::are_alike;
use sm_manager::Outgoing;
use smp_bytes::Smp;

/// A request that is out: it was sent, and has no answer yet.
#[derive(Clone, Copy, Debug)]
pub struct Out {
    pub request: Outgoing,
    /// How often the request was sent.
    pub tries: u32,
    /// The time from which on the request is late, in milliseconds.
    pub deadline: u64,
}

impl Out {
    ghost use Rattle.request_window.specs.Window.{answers, is_late};

    /// Returns whether an answer was waited for long enough at `time`.
    pub(crate) fn is_late(&self, time: u64) -> bool
        ensures { result ≡ is_late time self.now }
    {
        self.deadline <= time
    }

    /// Returns whether `packet` is a response with the TransactionID, attribute, modifier and class of the request.
    pub(crate) fn is_answered_by(&self, packet: &Smp) -> bool
        ensures { result ≡ answers packet.now self.now }
    {
        packet.is_response() && are_alike(packet, &self.request.packet)
    }
}
