//! Ports of a fabric's nodes, and the cables between them.
use crate::node_id::NodeId;
use smp_bytes::PortNum;

/// A port of a node of a fabric.
#[derive(Clone, Copy, Debug, PartialEq, Eq)]
pub struct NodePort {
    pub node: NodeId,
    /// The port's number at the node.
    pub port: PortNum,
}

/// A cable, which joins two ports or loops one.
#[derive(Clone, Copy, Debug, PartialEq, Eq)]
pub struct Cable {
    pub one: NodePort,
    pub other: NodePort,
}
