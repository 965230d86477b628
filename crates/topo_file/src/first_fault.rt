//! The first fault of a text's lines, found without memory from the allocator.
ghost use Rattle.std.specs.Prelude.{◌≡◌};
ghost use Rattle.topo_file.specs.FirstFault.{Leaves, first_line_fault, is_used, with_name, with_new_name};
ghost use Rattle.topo_file.specs.TopologyLine.{line_of};

use crate::draft::node;
use crate::node::Node;
use crate::nodes::MAX_NODES;
use crate::topo_fault::TopoFault;
use crate::topology_line::{TopologyLine, read_line};
use arrayvec::ArrayVec;
use text_words::{NodeName, split_line};

/// The names of the nodes so far. No slot is `None`.
type Names = ArrayVec<Option<NodeName>, MAX_NODES>;

/// Returns the first fault of a line of `text`, but for those of a link that depend on all nodes, if there is one. For
/// each node, takes time linear in the number of nodes above it.
pub(crate) fn first_line_fault(text: &[u8]) -> Option<TopoFault>
    ensures { result ≡ first_line_fault text.now }
{
    let mut names = Names::new();
    let mut number = 0;
    let mut rest = text;
    while let Some((line, later)) = split_line(rest) {
        number += 1;
        if let Err(fault) = judge_line(&mut names, number, line) {
            return Some(fault);
        }
        rest = later;
    }
    None
}

/// Checks `line`, of the number `number`, given the `names` of the nodes above it, to which it adds that of its node.
fn judge_line(names: &mut Names, number: usize, line: &[u8]) -> Result<(), TopoFault>
    ensures { Leaves (with_name number names.old.items (line_of line.now)) result names.new.items }
{
    match read_line(line) {
        None => Err(TopoFault::Syntax { line: number }),
        Some(TopologyLine::Empty) => Ok(()),
        Some(TopologyLine::Node(line)) => judge_node(names, number, node(number, line)?),
        Some(TopologyLine::Link(_)) => {
            if names.is_empty() {
                return Err(TopoFault::Syntax { line: number });
            }
            Ok(())
        }
    }
}

/// Checks the name of `node`, of the line `line`, and appends it to `names`. Fails with `Name` or `TooManyNodes`.
fn judge_node(names: &mut Names, line: usize, node: Node) -> Result<(), TopoFault>
    ensures { Leaves (with_new_name line names.old.items node.name) result names.new.items }
{
    if is_used(names.as_slice(), &node.name) {
        return Err(TopoFault::Name { line });
    }
    match names.try_push(Some(node.name)) {
        Ok(()) => Ok(()),
        Err(_) => Err(TopoFault::TooManyNodes { line }),
    }
}

/// Returns whether `name` is one of `names`.
fn is_used(names: &[Option<NodeName>], name: &NodeName) -> bool
    ensures { result ≡ is_used names.now name.now }
{
    names.iter().any(|used| match used {
        Some(used) => used.as_str().as_bytes() == name.as_str().as_bytes(),
        None => false,
    })
}
