ghost use Rattle.std.specs.Prelude.{◌≡◌, ◌≤◌, false, IfOk};
ghost use Rattle.node_agents.specs.Agent.{IsAgentNode, fresh_agent, is_switch, port_at, state_at, base_lid_at};
ghost use Rattle.node_agents.specs.Agent.{lmc_at, master_sm_lid_at, has_seat, entry_at, owns, after_set_wired};
ghost use Rattle.node_agents.specs.Agent.{after_set_seat};
ghost use Rattle.node_agents.specs.Answers.{after_answer};

use crate::agent_node::AgentNode;
use crate::handle::handle;
use crate::lft_block::BLOCK;
use crate::mft_block::{MASKS, position_count};
use crate::port::Port;
use attr_codec::{Lmc, PortState};
use smp_bytes::{Guid, Lid, NO_ENTRY, NodeType, PortNum, Smp, Status};
use std::alloc::{AllocError, Global};
use std::marker::Model;

/// The subnet management agent of a node: the node, its ports, its forwarding table and the table's top, and its
/// multicast forwarding table.
#[derive(Drop)]
pub struct Agent {
    pub(crate) node: AgentNode,
    /// The ports, starting at port 0; an adapter's port 0 is not used.
    pub(crate) ports: Vec<Port>,
    /// The forwarding table, in whole blocks: for each LID the outgoing port, or 255 if the LID has none. An
    /// adapter's table is empty.
    pub(crate) table: Vec<u8>,
    /// The greatest LID that a switch forwards; 0 if none was set.
    pub(crate) top: Lid,
    /// The multicast forwarding table: for each position a block with the masks of all multicast LIDs. An adapter's
    /// table is empty.
    pub(crate) masks: Vec<u8>,
}

impl Model for Agent {
    ghost use Rattle.node_agents.specs.Agent.{Agent as AgentState, IsAgent};

    ghost Value = { AgentState };

    ghost view = { λ a. record {
      node = a.node;
      ports = a.ports.items;
      table = a.table.items;
      top = a.top;
      masks = a.masks.items;
    } };

    ghost invariant = { λ a.
        IsAgent (record {
          node = a.node;
          ports = a.ports.items;
          table = a.table.items;
          top = a.top;
          masks = a.masks.items;
        }) };
}

impl Agent {
    /// Creates the agent of `node`, with no port wired, no manager seated and nothing written. `node` must be a node
    /// that can be built (`IsAgentNode`). Returns an error if memory runs out. Allocates all of the agent's memory.
    #[tactic(auto, unfolding(crate::specs::Agent::fresh_agent))]
    pub fn new(alloc: Global, node: AgentNode) -> Result<Agent, AllocError>
        requires { IsAgentNode node }
        ensures agent { IfOk result (λ agent. agent ≡ fresh_agent node) }
        ensures node { IfOk result (λ agent. agent.node ≡ node) }
    {
        let count = usize::from(node.ports) + 1;
        let mut ports = vec![in alloc; Port::in_state(PortState::Down); count]?;
        if node.is_switch() {
            ports[0] = Port::in_state(PortState::Active);
        }
        let entries = usize::from(node.cap).div_ceil(BLOCK) * BLOCK;
        let table = vec![in alloc; NO_ENTRY; entries]?;
        let masks = vec![in alloc; 0; MASKS * position_count(&node)]?;
        Ok(Agent {
            node,
            ports,
            table,
            top: Lid::NONE,
            masks,
        })
    }

    /// Returns the GUID of the node.
    pub fn guid(&self) -> Guid
        ensures { result ≡ self.now.node.guid }
    {
        self.node.guid
    }

    /// Returns the type of the node.
    pub fn kind(&self) -> NodeType
        ensures { result ≡ self.now.node.kind }
    {
        self.node.kind
    }

    /// Returns whether the node is a switch.
    pub fn is_switch(&self) -> bool
        ensures { result ≡ is_switch self.now }
    {
        self.node.is_switch()
    }

    /// Returns the number of the node's ports, 1 to 254. Port 0 of a switch is not counted.
    pub fn ports(&self) -> u8
        ensures count { result ≡ self.now.node.ports }
        ensures least { 1 ≤ result }
        ensures most { result ≤ 254 }
    {
        self.node.ports
    }

    /// Returns LinearFDBCap: the size of the forwarding table in entries, or 0 if the node has no table.
    pub fn cap(&self) -> u16
        ensures { result ≡ self.now.node.cap }
    {
        self.node.cap
    }

    /// Returns LinearFDBTop: the greatest LID that a switch forwards, or 0 if none was set.
    pub fn top(&self) -> Lid
        ensures { result ≡ self.now.top }
    {
        self.top
    }

    /// Returns the outgoing port that the table has for packets for `lid`, whatever the top is. Returns 255, which
    /// stands for no port, if the table has no entry for `lid`.
    pub fn entry(&self, lid: Lid) -> PortNum
        ensures { result ≡ entry_at self.now lid }
    {
        match self.table.get(usize::from(lid.number())) {
            Some(port) => PortNum::new(*port),
            None => PortNum::new(NO_ENTRY),
        }
    }

    /// Returns the port `port`. If the node does not have this port, returns a Down port to which nothing was written.
    pub(crate) fn port(&self, port: PortNum) -> Port
        ensures { result ≡ port_at self.now port }
    {
        match self.ports.get(usize::from(port.number())) {
            Some(port) => *port,
            None => Port::in_state(PortState::Down),
        }
    }

    /// Returns the link state of `port`, or Down if the node has no such port. A switch's port 0 is always Active.
    pub fn port_state(&self, port: PortNum) -> PortState
        ensures { result ≡ state_at self.now port }
    {
        self.port(port).state
    }

    /// Returns the base LID of `port`, or 0 if none was set or the node has no such port.
    pub fn base_lid(&self, port: PortNum) -> Lid
        ensures { result ≡ base_lid_at self.now port }
    {
        self.port(port).base_lid
    }

    /// Returns the LMC of `port`, or 0 if none was set or the node has no such port. A port with a LID has the 2^LMC
    /// LIDs that start at its base LID.
    pub fn lmc(&self, port: PortNum) -> Lmc
        ensures { result ≡ lmc_at self.now port }
    {
        self.port(port).lmc
    }

    /// Returns the LID that was set at `port` as the subnet manager's, or 0 if none was set or the node has no such
    /// port.
    pub fn master_sm_lid(&self, port: PortNum) -> Lid
        ensures { result ≡ master_sm_lid_at self.now port }
    {
        self.port(port).master_sm_lid
    }

    /// Returns whether `lid` is one of the LIDs of `port`, so that a packet for `lid` has arrived there. A port with
    /// LID 0 owns only LID 0.
    pub fn owns(&self, port: PortNum, lid: Lid) -> bool
        ensures { result ≡ owns self.now port lid }
    {
        let base = self.base_lid(port);
        if base.number() == 0 {
            lid.number() == 0
        } else {
            let first = u32::from(base.number());
            let lid = u32::from(lid.number());
            first <= lid && lid < first + u32::from(self.lmc(port).width())
        }
    }

    /// Returns whether a subnet manager sits at `port`.
    pub fn has_seat(&self, port: PortNum) -> bool
        ensures { result ≡ has_seat self.now port }
    {
        self.port(port).is_sm
    }

    /// Sets the state of `port` to Initialize if `is_wired`, as when a cable is plugged in, and otherwise to Down.
    /// `port` must be from 1 to the port count.
    pub fn set_wired(&mut self, port: PortNum, is_wired: bool)
        requires least { 1 ≤ port }
        requires most { port ≤ self.old.node.ports }
        ensures { self.new ≡ after_set_wired self.old port is_wired }
    {
        self.ports[usize::from(port.number())].state = if is_wired {
            PortState::Initialize
        } else {
            PortState::Down
        };
    }

    /// Seats a subnet manager at `port`. The node must be an adapter, and `port` from 1 to its port count.
    pub fn set_seat(&mut self, port: PortNum)
        requires adapter { is_switch self.old ≡ false }
        requires least { 1 ≤ port }
        requires most { port ≤ self.old.node.ports }
        ensures { self.new ≡ after_set_seat self.old port }
    {
        self.ports[usize::from(port.number())].is_sm = true;
    }

    /// Answers the request `smp`, which arrived at the port `arrival`, and applies it if it is a Set. A request that
    /// is refused changes nothing. `arrival` must be from 1 to the port count. Takes constant time.
    #[tactic(auto, unfolding(crate::specs::Answers::after_answer))]
    pub fn answer(&mut self, smp: &Smp, arrival: PortNum) -> Smp
        requires least { 1 ≤ arrival }
        requires most { arrival ≤ self.old.node.ports }
        ensures answer { result ≡ (after_answer self.old smp.now arrival).packet }
        ensures state { self.new ≡ (after_answer self.old smp.now arrival).agent }
        ensures node { self.new.node ≡ self.old.node }
    {
        match handle(self, smp, arrival) {
            Ok(payload) => smp.answer(Status::DONE, &payload),
            Err(refusal) => smp.answer(refusal.status(), &smp.attribute_data()),
        }
    }
}
