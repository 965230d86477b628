//! The LIDs and tables that the agents of a fabric have, printed in the form of a plan.
ghost use Rattle.std.specs.Prelude.{◌≡◌, ◌++◌, ◌<◌, map, IfOk, OnOk};
ghost use Rattle.schedule_lines.specs.Prints.{PrintsUnless};
ghost use Rattle.std.specs.List.{flat_map};
ghost use Rattle.schedule_lines.specs.Tables.{all_held, block_at, blocks_text, held_by, held_line};
ghost use Rattle.schedule_lines.specs.Tables.{switches, table_text, tables_text};

use crate::run_fault::RunFault;
use attr_codec::Lmc;
use byte_io::Sink;
use fabric_model::NodeId;
use fabric_sim::Fabric;
use lft_blocks::{write_block, write_lid, write_switch};
use node_agents::Agent;
use smp_bytes::{Guid, Lid, PortNum};
use std::alloc::{AllocError, Global};
use subnet_view::EndPort;

/// Prints the LIDs that the ports of a fabric have, and then the forwarding tables of all its switches.
pub fn show_tables<W: Sink>(alloc: Global, fabric: &Fabric, sink: &mut W) -> Result<(), RunFault>
    ensures prints { PrintsUnless W.written W.has_failed result sink.old sink.new
        (tables_text fabric.now) }
{
    let lids = held_lids(alloc, fabric)?;
    write_held(sink, &lids)?;
    let switches = switches(alloc, fabric)?;
    write_tables(sink, &switches)
}

/// A LID, with the node GUID and the number of the port that has it, and the port's LMC.
type AgentLid = (Lid, Guid, PortNum, Lmc);

/// Prints a line for each of `lids`: the LID, the LMC unless it is 0, and the node and number of its port.
fn write_held<W: Sink>(sink: &mut W, lids: &[AgentLid]) -> Result<(), RunFault>
    ensures prints { PrintsUnless W.written W.has_failed result sink.old sink.new
        (flat_map held_line lids.now) }
{
    for (lid, node, port, lmc) in lids {
        let port = EndPort {
            node: *node,
            port: *port,
        };
        write_lid(sink, *lid, *lmc, port)?;
    }
    Ok(())
}

/// Returns the LIDs that ports have, in order of LID, node GUID and port. Returns an error if memory runs out.
fn held_lids(alloc: Global, fabric: &Fabric) -> Result<Vec<AgentLid>, AllocError>
    ensures { IfOk result (λ held. held.items ≡ all_held fabric.now.agents) }
{
    let mut held = Vec::new(alloc);
    for number in 0..fabric.node_count() {
        hold_lids(&mut held, fabric.agent(NodeId::new(number)).unwrap())?;
    }
    held.sort_by_key(|held| (held.0, held.1, held.2))?;
    Ok(held)
}

/// Appends to `held` the LIDs other than 0 that the ports of `agent` have, in the order of the ports.
fn hold_lids(held: &mut Vec<AgentLid>, agent: &Agent) -> Result<(), AllocError>
    ensures { OnOk result (held.new.items ≡ held.old.items ++ held_by agent.now) }
{
    for port in 0..=agent.ports() {
        let port = PortNum::new(port);
        let lid = agent.base_lid(port);
        if lid.number() != 0 {
            let lmc = agent.lmc(port);
            held.push((lid, agent.guid(), port, lmc))?;
        }
    }
    Ok(())
}

/// Returns the agents of the switches, in ascending order of GUID. Returns an error if memory runs out.
fn switches<'f>(alloc: Global, fabric: &'f Fabric) -> Result<Vec<&'f Agent>, AllocError>
    ensures { IfOk result (λ found. map (λ agent. agent.now) found.items ≡ switches fabric.now.agents) }
{
    let mut switches = Vec::new(alloc);
    for number in 0..fabric.node_count() {
        let agent = fabric.agent(NodeId::new(number)).unwrap();
        if agent.is_switch() {
            switches.push(agent)?;
        }
    }
    switches.sort_by_key(|agent| agent.guid())?;
    Ok(switches)
}

/// Prints the tables of `switches`, in the order of `switches`.
fn write_tables<W: Sink>(sink: &mut W, switches: &[&Agent]) -> Result<(), RunFault>
    ensures prints { PrintsUnless W.written W.has_failed result sink.old sink.new
        (flat_map (λ agent. table_text agent.now) switches.now) }
{
    for switch in switches {
        write_table(sink, switch)?;
    }
    Ok(())
}

/// Prints the lines of a switch: its GUID with the top of its table, and its blocks up to the block of the top.
fn write_table<W: Sink>(sink: &mut W, agent: &Agent) -> Result<(), RunFault>
    ensures prints { PrintsUnless W.written W.has_failed result sink.old sink.new
        (table_text agent.now) }
{
    write_switch(sink, agent.top(), agent.guid())?;
    write_blocks(sink, agent)
}

/// Prints the blocks of a switch, up to the block of its top.
fn write_blocks<W: Sink>(sink: &mut W, agent: &Agent) -> Result<(), RunFault>
    ensures prints { PrintsUnless W.written W.has_failed result sink.old sink.new
        (blocks_text agent.now) }
{
    for b in 0..usize::from(agent.top().block()) + 1 {
        write_block(sink, b, &block(agent, b))?;
    }
    Ok(())
}

/// Returns block `b` of the table of `agent`.
fn block(agent: &Agent, b: usize) -> [u8; 64]
    requires { b < 1024 }
    ensures { result ≡ block_at agent.now b }
{
    let mut block = [0; 64];
    for i in 0..64 {
        block[i] = agent.entry(Lid::new((64 * b + i) as u16)).number();
    }
    block
}
