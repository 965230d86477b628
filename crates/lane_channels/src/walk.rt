//! Packets followed from stop to stop, under all mixtures of several tables.
ghost use Rattle.std.specs.Prelude.{◌≡◌, ◌<◌, OnOk};
ghost use Rattle.std.specs.Option.{option_to_list};
ghost use Rattle.lane_channels.specs.Visit.{AreFollowedBy, HasRoom};
ghost use Rattle.lane_channels.specs.Walk.{Begins};

use crate::visit::visit_if_new;
use crate::walk_state::{LidColumns, Walks};
use std::alloc::AllocError;

/// Follows a packet of `level` from the stop `first` on, if there is one, at each stop along the edge of each column.
pub(crate) fn walk(
    columns: &LidColumns,
    level: u8,
    first: Option<usize>,
    walks: &mut Walks,
) -> Result<(), AllocError>
    requires level { level < 16 }
    requires walks { HasRoom columns.now walks.old }
    ensures { OnOk result (AreFollowedBy columns.now (Begins level first) walks.old walks.new) }
{
    begin(&mut walks.stops, first)?;
    for _step in 0..usize::MAX {
        let Some(stop) = walks.stops.pop() else {
            return Ok(());
        };
        visit_if_new(columns, level, stop, walks)?;
    }
    // Each stop is visited at most once, so there are fewer steps than `usize::MAX`.
    Err(AllocError)
}

/// Replaces `stops` by `first` alone, or by nothing if `first` is `None`.
fn begin(stops: &mut Vec<usize>, first: Option<usize>) -> Result<(), AllocError>
    ensures { OnOk result (stops.new.items ≡ option_to_list first) }
{
    stops.clear();
    if let Some(stop) = first {
        stops.push(stop)?;
    }
    Ok(())
}
