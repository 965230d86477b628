ghost use Rattle.std.specs.Prelude.{◌≡◌, ◌∷◌};
ghost use Rattle.text_words.specs.Text.{words};
ghost use Rattle.topo_file.specs.TopologyLine.{line_of, kind_of, node_line, cap_of, link_line};

use smp_bytes::{Guid, Lid, NodeType};
use text_words::{
    NodeName, bracketed_port, count, guid, is_word, named_port, port_number, quoted_name,
    split_word,
};

/// What a line of a topology says: nothing, a node or a link.
#[derive(Drop)]
pub(crate) enum TopologyLine {
    Empty,
    Node(NodeLine),
    Link(LinkLine),
}

/// A node, as given by its line. A number is `None` if it is out of range.
#[derive(Drop)]
pub(crate) struct NodeLine {
    pub(crate) kind: NodeType,
    /// The port count, 1 to 254; `None` if the line has another number.
    pub(crate) ports: Option<u8>,
    pub(crate) name: NodeName,
    pub(crate) guid: Guid,
    /// The size of the forwarding table: 1 to 49,152 for a switch, 0 for an adapter; `None` if the line has another
    /// number.
    pub(crate) cap: Option<u16>,
}

/// A link, as given by its line: a port of the last node above the line, and the peer's name and port. A port is
/// `None` if it is not from 1 to 254.
#[derive(Drop)]
pub(crate) struct LinkLine {
    pub(crate) port: Option<u8>,
    pub(crate) peer: NodeName,
    pub(crate) peer_port: Option<u8>,
}

/// Parses a line. Returns `None` if the grammar has no such line.
#[tactic(auto, unfolding(crate::specs::TopologyLine::line_of))]
pub(crate) fn read_line(line: &[u8]) -> Option<TopologyLine>
    ensures { result ≡ line_of line.now }
{
    let Some((word, rest)) = split_word(line) else {
        return Some(TopologyLine::Empty);
    };
    match kind(word) {
        Some(kind) => Some(TopologyLine::Node(node_line(kind, rest)?)),
        None => Some(TopologyLine::Link(link_line(word, rest)?)),
    }
}

/// Returns the type of node that `word` names, or `None` if `word` names no type.
fn kind(word: &[u8]) -> Option<NodeType>
    ensures { result ≡ kind_of word.now }
{
    if is_word(word, "Switch") {
        Some(NodeType::Switch)
    } else if is_word(word, "Hca") || is_word(word, "Ca") {
        Some(NodeType::ChannelAdapter)
    } else {
        None
    }
}

/// Parses the line of a node of the type `kind`, without its first word, if the grammar has it.
fn node_line(kind: NodeType, line: &[u8]) -> Option<NodeLine>
    ensures { result ≡ node_line kind (words line.now) }
{
    let (ports, line) = split_word(line)?;
    let (name, line) = split_word(line)?;
    let (word, line) = split_word(line)?;
    let (number, line) = split_word(line)?;
    if !is_word(word, "guid") {
        return None;
    }
    Some(NodeLine {
        kind,
        ports: port_number(ports)?,
        name: quoted_name(name)?,
        guid: guid(number)?,
        cap: cap(kind, line)?,
    })
}

/// Parses `line`, the rest of a node's line, as the size of the forwarding table, by default 1024 for a switch and 0
/// for an adapter. The inner value is `None` if the number is out of range.
fn cap(kind: NodeType, line: &[u8]) -> Option<Option<u16>>
    ensures { result ≡ cap_of kind (words line.now) }
{
    let word = split_word(line);
    match (kind, word) {
        (NodeType::Switch, None) => Some(Some(1024)),
        (NodeType::Switch, Some((word, line))) => given_cap(word, line),
        (NodeType::ChannelAdapter, None) => Some(Some(0)),
        _ => None,
    }
}

/// Parses the size of a switch's table: `cap` in `word`, and a number in `line`, which is `None` if out of range.
fn given_cap(word: &[u8], line: &[u8]) -> Option<Option<u16>>
    ensures { result ≡ cap_of NodeType.Switch (word.now ∷ words line.now) }
{
    let (number, line) = split_word(line)?;
    if split_word(line).is_some() {
        return None;
    }
    if is_word(word, "cap") {
        count(number, Lid::UNICAST_END)
    } else {
        None
    }
}

/// Parses a link from `port`, the first word of its line, and `line`, the rest, if the grammar has it.
fn link_line(port: &[u8], line: &[u8]) -> Option<LinkLine>
    ensures { result ≡ link_line (port.now ∷ words line.now) }
{
    let (end, line) = split_word(line)?;
    if split_word(line).is_some() {
        return None;
    }
    let port = bracketed_port(port)?;
    let (peer, peer_port) = named_port(end)?;
    Some(LinkLine {
        port,
        peer,
        peer_port,
    })
}
