ghost use Rattle.std.specs.Prelude.{◌≡◌, ◌≤◌, None, Some, IfOk, length};
ghost use Rattle.std.specs.Option.{option_copied};
ghost use Rattle.std.specs.List.Sorted.{IsStrictlyIncreasing};
ghost use Rattle.fact_store.specs.View.{cells_of};
ghost use Rattle.smp_bytes.specs.Judges.{JudgesButFor};
ghost use Rattle.lid_assign.specs.LidFault.{is_memory, lid_fault, no_room};
ghost use Rattle.lid_assign.specs.Lids.{top_of};
ghost use Rattle.subnet_view.specs.Graph.{guids_of};
ghost use Rattle.updown_routes.specs.Updown.{updown};
ghost use Rattle.lft_blocks.specs.Entries.{block_count};
ghost use Rattle.lft_blocks.specs.Rule.{routing_by, rule_of, spread_in, up_and_down, value_of};
ghost use Rattle.spread_routes.specs.SwitchOrder.{order_value_of};
ghost use Rattle.lft_blocks.specs.Arrival.{EveryPacketArrivesBy};
ghost use Rattle.lft_blocks.specs.Attachment.{AreWithin};
ghost use Rattle.lft_blocks.specs.TableRow.{attachment_by_index};
ghost use Rattle.lft_blocks.specs.Plan.{tables_of, tables_by, plan_of, lid_routing, block_at, switches_of};

use crate::Rule;
use crate::attachment::{Attachment, attachments, index_of};
use crate::block::block_count;
use crate::spread_table::spread_tables;
use crate::table::Table;
use crate::updown_table::tables;
use attr_codec::Lmc;
use fact_store::{Refused, Store};
use lid_assign::{LidFault as PlanFault, LidMap, assign, assign_in};
use smp_bytes::{Guid, Lid};
use spread_routes::SwitchOrder;
use std::alloc::Global;
use std::marker::Model;
use subnet_view::{SubnetGraph, SwitchGraph, WiredGraph, Wires};
use updown_routes::{Graph, Routes};

/// The plan of a view: the LID of each end port, and the blocks of each usable switch.
#[derive(Drop)]
pub struct Plan {
    lids: LidMap,
    /// The usable switches, in ascending order of GUID.
    switches: Vec<Guid>,
    /// The table of each switch, in ascending order of GUID.
    tables: Vec<Table>,
}

impl Model for Plan {
    ghost use Rattle.lft_blocks.specs.Plan.{PlanValue, AreTables};

    ghost Value = { PlanValue };

    ghost view = { λ a. record { given = a.lids; tables = a.tables.items } };

    ghost invariant = { λ a. AreTables a.switches.items a.tables.items };
}

impl Plan {
    /// Plans the view in `store` under `rule`, with 2^`lmc` LIDs for each adapter port. If the plan is in force in a
    /// part, every packet arrives there. The plan takes 64 bytes for each block of each switch.
    ///
    /// # Errors
    ///
    /// Returns `NoRoom` if there is no room for the LIDs, and otherwise `Memory` if memory runs out.
    pub fn of(alloc: Global, store: &Store, lmc: Lmc, rule: &Rule) -> Result<Self, PlanFault>
        ensures judged { JudgesButFor is_memory result (lid_fault (no_room lmc (cells_of store.now))) }
        ensures plan { IfOk result (λ plan.
            plan ≡ plan_of (value_of rule.now) lmc (cells_of store.now)) }
        ensures arrives { IfOk result (λ plan. EveryPacketArrivesBy
            (rule_of rule.now (cells_of store.now)) (cells_of store.now) plan) }
    {
        let lids = assign(alloc, store, lmc)?;
        let wires = Wires::of(alloc, store)?;
        let graph = SwitchGraph::of(alloc, &wires)?;
        let wired = WiredGraph {
            wires: &wires,
            graph: &graph,
        };
        let tables = tables_of(alloc, &wired, &lids, lmc, rule)?;
        let switches = graph.into_switches();
        Ok(Plan {
            lids,
            switches,
            tables,
        })
    }

    /// Plans the subnet of `planned` under `rule`, with 2^`lmc` LIDs for each adapter port, as `of` plans a view.
    ///
    /// # Errors
    ///
    /// Returns `NoRoom` if there is no room for the LIDs, and otherwise `Memory` if memory runs out.
    pub fn in_subnet(
        alloc: Global,
        planned: &SubnetGraph,
        lmc: Lmc,
        rule: &Rule,
    ) -> Result<Self, PlanFault>
        ensures judged { JudgesButFor is_memory result (lid_fault (no_room lmc (cells_of planned.now.subnet))) }
        ensures plan { IfOk result (λ plan.
            plan ≡ plan_of (value_of rule.now) lmc (cells_of planned.now.subnet)) }
        ensures arrives { IfOk result (λ plan. EveryPacketArrivesBy
            (rule_of rule.now (cells_of planned.now.subnet)) (cells_of planned.now.subnet) plan) }
    {
        let lids = assign_in(alloc, &planned.subnet, lmc)?;
        let tables = tables_of(alloc, &planned.wired(), &lids, lmc, rule)?;
        let switches = Vec::from_slice(alloc, planned.subnet.switches())?;
        Ok(Plan {
            lids,
            switches,
            tables,
        })
    }

    /// Plans the subnet of `planned` under up/down routing, as `in_subnet` does, and also returns the ranks of its
    /// switches, by which this rule routes.
    ///
    /// # Errors
    ///
    /// Returns `NoRoom` if there is no room for the LIDs, and otherwise `Memory` if memory runs out.
    pub fn with_ranks<'g>(
        alloc: Global,
        planned: &'g SubnetGraph,
        lmc: Lmc,
    ) -> Result<(Self, Graph<'g>), PlanFault>
        ensures judged { JudgesButFor is_memory result (lid_fault (no_room lmc (cells_of planned.now.subnet))) }
        ensures plan { IfOk result (λ found.
            found.0 ≡ plan_of up_and_down lmc (cells_of planned.now.subnet)) }
        ensures ranked { IfOk result (λ found. found.1 ≡ planned.now.graph) }
    {
        let given = assign_in(alloc, &planned.subnet, lmc)?;
        let ranked = Graph::of(alloc, &planned.graph)?;
        let tables = by_ranks(alloc, &planned.wired(), &ranked, &given)?;
        let switches = Vec::from_slice(alloc, planned.subnet.switches())?;
        let plan = Plan {
            lids: given,
            switches,
            tables,
        };
        Ok((plan, ranked))
    }

    /// Returns the LIDs that the plan gives to the end ports.
    pub fn lids(&self) -> &LidMap
        ensures { result.now ≡ self.now.given }
    {
        &self.lids
    }

    /// Returns the greatest LID of the plan, or `None` if no end port has a LID.
    pub fn top(&self) -> Option<Lid>
        ensures { result ≡ top_of self.now.given }
    {
        self.lids.top()
    }

    /// Returns the usable switches, in ascending order of GUID.
    pub fn switches(&self) -> &[Guid]
        ensures { result.now ≡ switches_of self.now }
    {
        &self.switches
    }

    /// Returns block `b` of the switch `guid`. Entry `i` is the port by which packets for the LID `64 * b + i` leave.
    /// It is 0 if the switch has that LID itself, and 255 if no end port has the LID or no way leads to its owner.
    /// Returns `None` exactly when `guid` is not a usable switch, no end port has a LID, or block `b` is after the
    /// block of the greatest LID. Does a binary search among the switches.
    pub fn block(&self, guid: Guid, b: usize) -> Option<&[u8; 64]>
        ensures { option_copied result ≡ block_at self.now guid b }
    {
        let index = index_of(&self.switches, guid)?;
        self.tables[index].block(b)
    }

    /// Returns the table of each usable switch, in ascending order of GUID.
    pub fn tables(&self) -> &[Table]
        ensures { result.now ≡ self.now.tables }
    {
        &self.tables
    }
}

/// Returns the table of each usable switch under `rule`, in ascending order of GUID.
fn tables_of(
    alloc: Global,
    wired: &WiredGraph,
    lids: &LidMap,
    lmc: Lmc,
    rule: &Rule,
) -> Result<Vec<Table>, Refused>
    ensures { IfOk result (λ tables. tables.items
        ≡ tables_by (lid_routing (value_of rule.now) lmc (cells_of wired.now.wires.now) lids.now)
        (cells_of wired.now.wires.now) lids.now) }
{
    match rule {
        Rule::UpDown => by_updown(alloc, wired, lids),
        Rule::Spread { order } => by_spread(alloc, wired, lids, lmc, order),
    }
}

/// Returns the table of each usable switch under the rule that spreads by `order`, in ascending order of GUID.
fn by_spread(
    alloc: Global,
    wired: &WiredGraph,
    lids: &LidMap,
    lmc: Lmc,
    order: &SwitchOrder,
) -> Result<Vec<Table>, Refused>
    ensures { IfOk result (λ tables. tables.items
        ≡ tables_by (lid_routing (spread_in (order_value_of order.now)) lmc (cells_of wired.now.wires.now) lids.now)
        (cells_of wired.now.wires.now) lids.now) }
{
    let count = block_count(lids.top());
    let attachments = attachments(alloc, wired, lids, count)?;
    Ok(spread_tables(alloc, wired, &attachments, lmc, order, count)?)
}

/// Returns the table of each usable switch under up/down routing, in ascending order of GUID.
fn by_updown(alloc: Global, wired: &WiredGraph, lids: &LidMap) -> Result<Vec<Table>, Refused>
    ensures { IfOk result (λ tables. tables.items
        ≡ tables_by (routing_by up_and_down (cells_of wired.now.wires.now)) (cells_of wired.now.wires.now) lids.now) }
{
    let ranked = Graph::of(alloc, wired.graph)?;
    by_ranks(alloc, wired, &ranked, lids)
}

/// Returns the table of each usable switch under up/down routing by the ranks of `ranked`, in ascending order of GUID.
/// `ranked` must be the graph of `wired`.
fn by_ranks(
    alloc: Global,
    wired: &WiredGraph,
    ranked: &Graph,
    lids: &LidMap,
) -> Result<Vec<Table>, Refused>
    requires { ranked.now ≡ wired.now.graph.now }
    ensures { IfOk result (λ tables. tables.items
        ≡ tables_by (routing_by up_and_down (cells_of wired.now.wires.now)) (cells_of wired.now.wires.now) lids.now) }
{
    let count = block_count(lids.top());
    let attachments = attachments(alloc, wired, lids, count)?;
    let tables = updown_tables(alloc, ranked, &attachments, count)?;
    Ok(tables)
}

/// Returns the table of each switch of `graph`, with `count` blocks, for routes that go up and then down.
fn updown_tables(
    alloc: Global,
    graph: &Graph,
    attachments: &[Option<Attachment>],
    count: usize,
) -> Result<Vec<Table>, Refused>
    requires rising { IsStrictlyIncreasing (guids_of graph.now) }
    requires within { AreWithin (length (guids_of graph.now)) attachments.now }
    requires few { count ≤ 1024 }
    ensures { IfOk result (λ tables. tables.items
        ≡ tables_of (attachment_by_index (guids_of graph.now) attachments.now) (updown graph.now).next
        count (guids_of graph.now)) }
{
    let routes = Routes::of(alloc, graph)?;
    Ok(tables(alloc, &routes, attachments, graph.switches(), count)?)
}
