ghost use Rattle.std.specs.Prelude.{◌≡◌, position};
ghost use Rattle.request_window.specs.Window.{earlier, is_late, late_in, least_deadline};

use crate::late::Late;
use crate::limits::Limits;
use crate::out::Out;

/// Notes the first of `outs` that is late at `time` as sent again, or removes it, and returns what becomes of it.
pub(crate) fn judge_late(outs: &mut Vec<Out>, limits: Limits, time: u64) -> Option<Late>
    ensures outs { outs.new.items ≡ (late_in limits time outs.old.items).outs }
    ensures late { result ≡ (late_in limits time outs.old.items).late }
{
    let index = first_late(outs, time)?;
    let out = outs[index];
    if limits.send_again(&out) {
        outs[index] = limits.out_at(time, out.tries + 1, &out.request);
        Some(Late::Again(out.request))
    } else {
        outs.remove(index);
        Some(Late::GivenUp(out.request))
    }
}

/// Returns the index of the first of `outs` that is late at `time`, or `None` if none is late.
fn first_late(outs: &[Out], time: u64) -> Option<usize>
    ensures { result ≡ position (is_late time) outs.now }
{
    outs.iter().position(|out| out.is_late(time))
}

/// Returns the least deadline of `outs`, or `None` if there is none.
pub(crate) fn least_deadline(outs: &[Out]) -> Option<u64>
    ensures { result ≡ least_deadline outs.now None }
{
    let mut least = None;
    for out in outs {
        least = Some(earlier(least, out.deadline));
    }
    least
}

/// Returns the lesser of `least` and `deadline`, or `deadline` if `least` is `None`.
fn earlier(least: Option<u64>, deadline: u64) -> u64
    ensures { result ≡ earlier least deadline }
{
    match least {
        None => deadline,
        Some(least) => least.min(deadline),
    }
}
