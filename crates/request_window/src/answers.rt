ghost use Rattle.std.specs.Prelude.{◌≡◌, position};
ghost use Rattle.request_window.specs.Window.{answers, are_alike, are_of_one_class, first_out};

use crate::out::Out;
use sm_manager::Outgoing;
use smp_bytes::Smp;

/// Removes the first of `outs` that `packet` answers, and returns it. Returns `None` if `packet` answers none.
pub(crate) fn take_answered(outs: &mut Vec<Out>, packet: &Smp) -> Option<Outgoing>
    ensures outs { outs.new.items ≡ (first_out (answers packet.now) outs.old.items).outs }
    ensures request { result ≡ (first_out (answers packet.now) outs.old.items).request }
{
    let index = first_answered(outs, packet)?;
    Some(outs.remove(index).request)
}

/// Returns the index of the first of `outs` that `packet` answers, or `None` if `packet` answers none.
fn first_answered(outs: &[Out], packet: &Smp) -> Option<usize>
    ensures { result ≡ position (answers packet.now) outs.now }
{
    outs.iter().position(|out| out.is_answered_by(packet))
}

/// Returns whether the packets have the same TransactionID, AttributeID, AttributeModifier and class.
pub(crate) fn are_alike(one: &Smp, other: &Smp) -> bool
    ensures { result ≡ are_alike one.now other.now }
{
    one.transaction_id() == other.transaction_id()
        && one.attribute_id() == other.attribute_id()
        && one.attribute_modifier() == other.attribute_modifier()
        && are_of_one_class(one, other)
}

/// Returns whether both packets are directed, or neither is.
fn are_of_one_class(one: &Smp, other: &Smp) -> bool
    ensures { result ≡ are_of_one_class one.now other.now }
{
    one.class() == other.class()
}
