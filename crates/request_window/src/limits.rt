ghost use Rattle.std.specs.Prelude.{◌≡◌};
ghost use Rattle.request_window.specs.Window.{is_poll};

use crate::out::Out;
use sm_manager::Outgoing;
use sm_policy::later_by;
use smp_bytes::{AttributeId, Method, Smp};

/// How many requests may be out at a time, how often each is sent, and how long an answer is waited for.
#[derive(Clone, Copy, Debug, PartialEq, Eq)]
pub struct Limits {
    /// How many requests may be out at a time.
    pub outstanding: u32,
    /// How often each request is sent at most. A request is sent once even if this is 0, and a poll is never sent
    /// again.
    pub tries: u32,
    /// For how many milliseconds an answer is waited for. An answer to a request for SMInfo is waited for three times
    /// as long.
    pub timeout: u32,
}

impl Limits {
    ghost use Rattle.request_window.specs.Window.{is_sent_again, out_at, patience};

    /// Returns for how many milliseconds an answer to `request` is waited for: three times as long for SMInfo, since
    /// another manager may answer late while it plans.
    fn patience(self, request: &Outgoing) -> u64
        ensures { result ≡ patience self request.now }
    {
        let timeout = u64::from(self.timeout);
        if request.packet.attribute_id() == AttributeId::SM_INFO {
            3 * timeout
        } else {
            timeout
        }
    }

    /// Returns whether `out`, which is late, is sent again: it was not sent as often as it may be, and it is no poll,
    /// since the next poll asks the same.
    pub(crate) fn send_again(self, out: &Out) -> bool
        ensures { result ≡ is_sent_again self out.now }
    {
        out.tries < self.tries && !is_poll(&out.request.packet)
    }

    /// Returns `request` as one that is out. It is sent at `time`, and was sent `tries` times with that.
    pub(crate) fn out_at(self, time: u64, tries: u32, request: &Outgoing) -> Out
        ensures { result ≡ out_at self time tries request.now }
    {
        let deadline = later_by(self.patience(request), time);
        Out {
            request: *request,
            tries,
            deadline,
        }
    }
}

/// Returns whether `packet` is a poll: a Get of SMInfo that no sweep asks, since a sweep's TransactionIDs are 2^32 or
/// more.
fn is_poll(packet: &Smp) -> bool
    ensures { result ≡ is_poll packet.now }
{
    packet.method() == Method::GET
        && packet.attribute_id() == AttributeId::SM_INFO
        && packet.transaction_id() < 0x1_0000_0000
}
