ghost use Rattle.std.specs.Prelude.{◌≡◌, IfSome, IsTrue};
ghost use Rattle.reply_facts.specs.Sighting.{is_guid};

use smp_bytes::{Guid, PortNum};

/// What a manager knows about the node that a reply came from.
#[derive(Clone, Copy, Debug, PartialEq, Eq)]
pub enum Context {
    /// The node is the manager's own.
    Start,
    /// The last hop of the request's path left this node by this port.
    Via(Guid, PortNum),
    /// The node has this GUID.
    About(Guid),
}

impl Context {
    ghost use Rattle.reply_facts.specs.Report.{about_of, via_of};

    /// Returns the last node that the path of a `Via` context leaves, with the port, and otherwise `None`.
    pub(crate) fn via(&self) -> Option<(Guid, PortNum)>
        ensures parts { result ≡ via_of self.now }
        ensures in_range { IfSome result (λ via. IsTrue (is_guid via.0)) }
    {
        match self {
            // The GUID is built again from its number, which shows that it has 64 bits.
            Context::Via(node, port) => Some((Guid::new(node.number()), *port)),
            Context::Start | Context::About(_) => None,
        }
    }

    /// Returns the node that the reply is about, or `None` unless the context is `About`.
    pub(crate) fn about(&self) -> Option<Guid>
        ensures node { result ≡ about_of self.now }
        ensures in_range { IfSome result (λ node. IsTrue (is_guid node)) }
    {
        match self {
            Context::About(node) => Some(Guid::new(node.number())),
            Context::Start | Context::Via(..) => None,
        }
    }
}

/// A recorded reply: the generation of the sweep that asked, the context, and the 256 bytes of the packet.
#[derive(Clone, Copy, Debug)]
pub struct Report {
    pub generation: u32,
    pub context: Context,
    pub bytes: [u8; 256],
}
