//! What a run on files is asked for.
ghost use Rattle.std.specs.Prelude.{◌≡◌};
ghost use Rattle.sm_cli.specs.Asked.{texts_if};

use attr_codec::Lmc;
use smp_bytes::Generation;

/// A rule of routing that can be asked for.
#[derive(Clone, Copy, Debug, PartialEq, Eq)]
pub enum RuleAsked {
    /// Up towards the root of each component, and then down, by the least ports.
    UpDown,
    /// Spread over all wires, in an order that grows from the most central switch of each component.
    Spread,
    /// Spread over all wires, in an order that grows from the roots that a text names.
    SpreadFromRoots,
    /// Spread over all wires, in an order that grows as a text names switches.
    SpreadInOrder,
    /// Spread over all wires, with balanced loads, in the order of the least trial load.
    Balance,
    /// Spread over all wires, with balanced loads, in an order that grows as a text names switches.
    BalanceInOrder,
}

impl RuleAsked {
    ghost use Rattle.sm_cli.specs.Asked.{texts_for};

    /// Returns the number of texts that the rule takes: 1 if a text names its roots or its order, otherwise 0.
    pub fn texts(self) -> usize
        ensures { result ≡ texts_for self }
    {
        match self {
            RuleAsked::UpDown | RuleAsked::Spread | RuleAsked::Balance => 0,
            RuleAsked::SpreadFromRoots | RuleAsked::SpreadInOrder | RuleAsked::BalanceInOrder => 1,
        }
    }
}

/// What a run on files writes.
#[derive(Clone, Copy, Debug, PartialEq, Eq)]
pub enum Output {
    /// What the files say together, as text, with a line for each fact.
    Facts,
    /// What the files say together, as a store file.
    Join,
    /// The plan that a rule of routing makes from the facts: the LID of each end port, with 2^LMC LIDs for each
    /// adapter port, and the forwarding blocks of each switch.
    Plan(Lmc, RuleAsked),
    /// The usable switches in the order by which a rule of routing plans.
    Order(RuleAsked),
}

impl Output {
    ghost use Rattle.sm_cli.specs.Asked.{rule_for};

    /// Returns the rule of routing by which the output is made. For facts and joined files, returns `UpDown`, which
    /// takes no text.
    pub fn rule(self) -> RuleAsked
        ensures { result ≡ rule_for self }
    {
        match self {
            Output::Facts | Output::Join => RuleAsked::UpDown,
            Output::Plan(_, asked) | Output::Order(asked) => asked,
        }
    }
}

/// What is asked of a run on files.
#[derive(Clone, Copy, Debug, PartialEq, Eq)]
pub struct Invocation {
    pub output: Output,
    /// The least floor at which the files are read. Facts below the floor are ignored.
    pub floor: Generation,
}

/// Returns the number of texts that an option adds to the inputs: 1 if `has_text` is true, otherwise 0.
pub fn texts_if(has_text: bool) -> usize
    ensures { result ≡ texts_if has_text }
{
    if has_text { 1 } else { 0 }
}
