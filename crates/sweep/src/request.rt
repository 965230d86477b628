ghost use Rattle.std.specs.Prelude.{◌≡◌, ◌-◌, ◌*◌, ◌^◌};
ghost use Rattle.sweep.specs.Replies.{belongs};
ghost use Rattle.sweep.specs.Sweep.{packet_of, transaction_of};

use crate::question::Question;
use fact_store::Context;
use request_table::Numbered;
use smp_bytes::{Generation, Method, Path, Smp};

/// A Get that a sweep sends along a directed route.
#[derive(Debug, Drop)]
pub struct Request {
    /// The sequence number, the low half of the TransactionID.
    pub number: u32,
    pub question: Question,
    /// The ports that lead to the node.
    pub path: Path<63>,
    /// The context that the report of the reply will have.
    pub context: Context,
}

impl Numbered for Request {
    ghost number = { λ r. r.number };

    fn number(&self) -> u32 {
        self.number
    }
}

/// Returns the TransactionID that has `generation` as its high half and `number` as its low half.
pub(crate) fn transaction_of(generation: Generation, number: u32) -> u64
    ensures { result ≡ transaction_of generation number }
{
    u64::from(generation.number()) * 0x1_0000_0000 + u64::from(number)
}

/// Returns how far `transaction` is above the least TransactionID of `generation`, or 0 if it is not.
pub(crate) fn sequence_of(generation: Generation, transaction: u64) -> u64
    ensures { result ≡ transaction - generation * 2 ^ 32 }
{
    transaction.saturating_sub(transaction_of(generation, 0))
}

impl Request {
    /// Returns the packet of the request in a sweep of `generation`.
    pub(crate) fn packet(&self, generation: Generation) -> Smp
        ensures { result ≡ packet_of generation self.now }
    {
        Smp::directed(
            Method::GET,
            self.question.attribute(),
            self.question.modifier(),
            transaction_of(generation, self.number),
            &self.path,
            &[0; 64],
        )
    }

    /// Returns whether `smp` has the TransactionID, attribute, modifier and path of the request in `generation`.
    pub(crate) fn is_answered_by(&self, generation: Generation, smp: &Smp) -> bool
        ensures { result ≡ belongs generation smp.now self.now }
    {
        smp.answers(
            transaction_of(generation, self.number),
            self.question.attribute(),
            self.question.modifier(),
            Some(&self.path),
        )
    }
}
