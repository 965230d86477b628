//! Lists in ascending order, with each element once.
ghost use Rattle.std.specs.Prelude.{◌≡◌};
ghost use Rattle.std.specs.Ordering.{nat_cmp};
ghost use Rattle.smp_bytes.specs.Ports.{node_port_cmp};
ghost use Rattle.audit_counts.specs.InOrder.{each_once};

use smp_bytes::{Guid, PortNum};

/// Sorts `guids` in ascending order, and removes duplicates.
pub(crate) fn order_guids(guids: &mut Vec<Guid>)
    ensures { guids.new.items ≡ each_once nat_cmp guids.old.items }
{
    guids.sort_unstable();
    guids.dedup();
}

/// Sorts `ports` by node GUID and then by port, and removes duplicates.
pub(crate) fn order_ports(ports: &mut Vec<(Guid, PortNum)>)
    ensures { ports.new.items ≡ each_once node_port_cmp ports.old.items }
{
    ports.sort_unstable();
    ports.dedup();
}
