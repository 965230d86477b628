//! The ends of walks from switch to switch, found in rounds. In each round every walk goes on from the switch that it
//! has reached.
ghost use Rattle.std.specs.Prelude.{◌≡◌, count_by};
ghost use Rattle.packet_walks.specs.EndsBySwitch.{AreFurther, HaveEnded, end_of, is_to, onward};

use crate::next_hop::NextHop;
use crate::packet_end::End;

/// Returns, for each switch, the end of the walk from there along `steps`, or a hop to a switch if the walk goes on
/// forever. `steps` has the next hop of each switch. Each round takes time linear in the number of switches. There
/// are at most as many rounds as the length of the longest walk has binary digits, and one more if some walk goes on
/// forever.
pub fn ends(steps: Vec<NextHop>) -> Vec<NextHop>
    ensures { HaveEnded steps.items result.items }
{
    let mut jumps = steps;
    let mut left = jumps.len();
    while left > 0 {
        let now = go_further(&mut jumps);
        if now == left {
            return jumps;
        }
        left = now;
    }
    jumps
}

/// Takes each walk further, one after the other. Returns the number of walks that have not ended yet.
fn go_further(jumps: &mut Vec<NextHop>) -> usize
    ensures further { AreFurther jumps.old.items jumps.new.items }
    ensures left { result ≡ count_by is_to jumps.new.items }
{
    let mut left = 0;
    for index in 0..jumps.len() {
        let step = onward(jumps, jumps[index]);
        jumps[index] = step;
        if is_to(&step) {
            left += 1;
        }
    }
    left
}

/// Returns whether `step` leads to a switch.
pub fn is_to(step: &NextHop) -> bool
    ensures { result ≡ is_to step.now }
{
    matches!(step, NextHop::To(_))
}

/// Returns the step after `step`: that of `steps` for the switch that `step` leads to. Returns `step` itself if it is
/// an end, or if `steps` has no step for that switch.
pub fn onward(steps: &[NextHop], step: NextHop) -> NextHop
    ensures { result ≡ onward steps.now step }
{
    match step {
        NextHop::To(index) => steps.get(index).copied().unwrap_or(step),
        NextHop::Ends(_) => step,
    }
}

/// Returns the end of a walk that has reached `step`, or `None` if `step` leads to a switch.
pub fn end_of(step: NextHop) -> Option<End>
    ensures { result ≡ end_of step }
{
    match step {
        NextHop::To(_) => None,
        NextHop::Ends(end) => Some(end),
    }
}
