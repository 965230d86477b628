ghost use Rattle.std.specs.Prelude.{◌≡◌};

use request_table::Numbered;
use smp_bytes::{AttributeId, Method, Path, Smp};

/// The purpose of a request outside sweeps.
#[derive(Clone, Copy, Debug, PartialEq, Eq)]
pub enum Purpose {
    /// A poll, which asks whether another manager is still there.
    Poll,
    /// A control: HANDOVER, which asks another manager to take over, or ACKNOWLEDGE, which says that this manager has
    /// taken over.
    Control,
    /// A step of the last writing.
    Step {
        /// Whether the plan counts as written only if the step was done.
        counts: bool,
    },
}

/// A request outside sweeps that was sent and is outstanding.
#[derive(Debug, Drop)]
pub struct Pending {
    /// The low half of the TransactionID. The high half is 0.
    pub number: u32,
    pub purpose: Purpose,
    /// The number of the attribute.
    pub attribute: u16,
    pub modifier: u32,
    /// The ports that lead to the receiver, or `None` if the request was sent by LIDs.
    pub path: Option<Path<63>>,
}

impl Numbered for Pending {
    ghost number = { λ p. p.number };

    fn number(&self) -> u32 {
        self.number
    }
}

impl Pending {
    ghost use Rattle.sm_manager.specs.ManagerRequests.{counts, is_step};
    ghost use Rattle.sm_manager.specs.Packets.{answers};

    /// Returns whether the request is a step of a writing.
    pub(crate) fn is_step(&self) -> bool
        ensures { result ≡ is_step self.now }
    {
        match self.purpose {
            Purpose::Step { .. } => true,
            Purpose::Poll | Purpose::Control => false,
        }
    }

    /// Returns whether the request is a step that must be done for the plan to count as written.
    pub(crate) fn counts(&self) -> bool
        ensures { result ≡ counts self.now }
    {
        match self.purpose {
            Purpose::Step { counts } => counts,
            Purpose::Poll | Purpose::Control => false,
        }
    }

    /// Returns whether `smp` is a GetResp that answers the request, whatever its status.
    pub(crate) fn is_answered_by(&self, smp: &Smp) -> bool
        ensures { result ≡ answers smp.now self.now }
    {
        smp.method() == Method::GET_RESP
            && smp.answers(
                u64::from(self.number),
                AttributeId(self.attribute),
                self.modifier,
                self.path.as_ref(),
            )
    }
}
