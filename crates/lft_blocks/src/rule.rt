ghost use Rattle.std.specs.Prelude.{◌≡◌, IfOk};
ghost use Rattle.lft_blocks.specs.Rule.{value_of};

use spread_routes::SwitchOrder;
use std::alloc::{AllocError, Global};

/// A rule of routing: how packets are routed between switches.
#[derive(Drop)]
pub enum Rule {
    /// Goes up until a walk down leads to the target, and then down. Of equally good ports, each switch takes the
    /// least.
    UpDown,
    /// Spreads packets over the wires, by an order of switches.
    Spread {
        /// How the order of switches is grown.
        order: SwitchOrder,
    },
}

impl Rule {
    /// Returns a copy. Takes time linear in the number of GUIDs that the order names. Returns an error if memory runs
    /// out.
    pub fn try_clone(&self, alloc: Global) -> Result<Self, AllocError>
        ensures { IfOk result (λ copy. value_of copy ≡ value_of self.now) }
    {
        match self {
            Rule::UpDown => Ok(Rule::UpDown),
            Rule::Spread { order } => Ok(Rule::Spread {
                order: order.try_clone(alloc)?,
            }),
        }
    }
}
