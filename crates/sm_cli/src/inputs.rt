//! The inputs of a run: the text of roots or of an order, if the rule takes one, and the inputs after it.
ghost use Rattle.std.specs.Prelude.{◌≡◌, ◌+◌, ◌-◌, ◌≤◌, ℕ, length, IfErr, IfOk};
ghost use Rattle.lft_blocks.specs.Rule.{value_of};
ghost use Rattle.sm_cli.specs.Asked.{texts_for};
ghost use Rattle.sm_cli.specs.Inputs.{AreInputs, IsInputFault, IsRuleFault, IsRuleRead};
ghost use Rattle.sm_cli.specs.Inputs.{fault_of_first, first_unusable, order_fault, rule_fault};
ghost use Rattle.spread_routes.specs.SwitchOrder.{order_value_of};

use crate::asked::RuleAsked;
use crate::fault::Fault;
use crate::input_texts::read_text;
use crate::text_fault::TextFault;
use byte_io::Source;
use lft_blocks::{Rule, SwitchOrder};
use smp_bytes::Guid;
use std::alloc::Global;

/// A reader of the inputs after the text that the rule takes.
pub trait InputReader<S: Source> {
    ghost use Rattle.sm_cli.specs.Inputs.{Reader};

    /// What the inputs say.
    type Told: Drop;

    // How inputs are read, and which switches are known from what they say.
    ghost reader: { Self → Reader S Self.Told };

    // Which numbers of inputs can be read.
    ghost takes: { Self → ℕ → Type 0 };

    /// Reads `inputs`, and returns what they say, or the fault of an input that is refused. `before` other inputs come
    /// before `inputs`. The reader must take this number of `inputs`, and there must be at most `usize::MAX` inputs in
    /// all.
    fn read(&self, alloc: Global, before: usize, inputs: &mut [S]) -> Result<Self::Told, Fault>
        requires enough { takes self.now (length inputs.old) }
        requires counted { before + length inputs.old ≤ usize.MAX }
        ensures read { IfOk result ((reader self.now).reads inputs.old inputs.new) }
        ensures refused { IfErr result ((reader self.now).refuses before inputs.old inputs.new) };

    /// Returns whether `guid` is a usable switch according to `told`, which is what the inputs say.
    fn has_switch(&self, told: &Self::Told, guid: Guid) -> bool
        ensures { result ≡ (reader self.now).has_switch told.now guid };
}

/// Reads the inputs, one after the other, each to its end. Returns the rule that is asked for, and what the inputs
/// after the rule's text say. There must be a text if the rule takes one, and `reader` must take the number of inputs
/// after it.
///
/// # Errors
///
/// Returns the fault of the first input that is refused. Memory that is refused counts as a fault of its input. If the
/// rule takes a text of roots, and the text names no root, or a root that is not a usable switch, this is returned as
/// a fault of the first input once all inputs are read.
pub fn read_inputs<S: Source, R: InputReader<S>>(
    alloc: Global,
    asked: RuleAsked,
    reader: &R,
    inputs: &mut [S],
) -> Result<(Rule, R::Told), Fault>
    requires texts { texts_for asked ≤ length inputs.old }
    requires enough { R.takes reader.now (length inputs.old - texts_for asked) }
    ensures read { IfOk result (λ read. AreInputs S.state (R.reader reader.now) asked inputs.old inputs.new
        (value_of read.0) read.1) }
    ensures refused { IfErr result (IsInputFault S.state (R.reader reader.now) asked inputs.old inputs.new) }
{
    let (texts, others) = inputs.split_at_mut(asked.texts());
    let rule = read_rule(alloc, asked, texts)?;
    let told = reader.read(alloc, asked.texts(), others)?;
    match rule_fault(asked, &rule, reader, &told) {
        Some(fault) => Err(Fault::Text { input: 0, fault }),
        None => Ok((rule, told)),
    }
}

/// Reads the rule that is asked for, with the text of its roots or its order to its end if there is one.
fn read_rule<S: Source>(alloc: Global, asked: RuleAsked, texts: &mut [S]) -> Result<Rule, Fault>
    requires { length texts.old ≡ texts_for asked }
    ensures read { IfOk result (λ rule.
        IsRuleRead S.state asked texts.old texts.new (value_of rule)) }
    ensures refused { IfErr result
        (IsRuleFault S.state asked texts.old texts.new) }
{
    match asked {
        RuleAsked::UpDown => Ok(Rule::UpDown),
        RuleAsked::Spread => Ok(Rule::Spread {
            order: SwitchOrder::FromRoots {
                roots: Vec::new(alloc),
            },
        }),
        RuleAsked::Balance => Ok(Rule::Spread {
            order: SwitchOrder::LeastLoaded,
        }),
        RuleAsked::SpreadFromRoots => {
            let roots = read_text(alloc, 0, texts)?;
            Ok(Rule::Spread {
                order: SwitchOrder::FromRoots { roots },
            })
        }
        RuleAsked::SpreadInOrder => {
            let switches = read_text(alloc, 0, texts)?;
            Ok(Rule::Spread {
                order: SwitchOrder::AsNamed { switches },
            })
        }
        RuleAsked::BalanceInOrder => {
            let switches = read_text(alloc, 0, texts)?;
            Ok(Rule::Spread {
                order: SwitchOrder::BalancedAs { switches },
            })
        }
    }
}

/// Returns why no plan can be made by `rule`, if so: its text names no root, or a root that is no usable switch.
fn rule_fault<S: Source, R: InputReader<S>>(
    asked: RuleAsked,
    rule: &Rule,
    reader: &R,
    told: &R::Told,
) -> Option<TextFault>
    ensures { result ≡ rule_fault ((R.reader reader.now).has_switch told.now) asked (value_of rule.now) }
{
    match (asked, rule) {
        (RuleAsked::SpreadFromRoots, Rule::Spread { order }) => order_fault(order, reader, told),
        _ => None,
    }
}

/// Returns why no plan can be made by `order`, if so: it has no root to grow from, or one that is no usable switch.
fn order_fault<S: Source, R: InputReader<S>>(
    order: &SwitchOrder,
    reader: &R,
    told: &R::Told,
) -> Option<TextFault>
    ensures { result ≡ order_fault ((R.reader reader.now).has_switch told.now) (order_value_of order.now) }
{
    match order {
        SwitchOrder::FromRoots { roots } => {
            fault_of_first(roots, first_unusable(roots, reader, told))
        }
        SwitchOrder::AsNamed { .. } | SwitchOrder::BalancedAs { .. } | SwitchOrder::LeastLoaded =>
            None,
    }
}

/// Returns `NoRoot` if `roots` is empty, and otherwise `NoSwitch` with `unusable`, if there is one.
fn fault_of_first(roots: &[Guid], unusable: Option<Guid>) -> Option<TextFault>
    ensures { result ≡ fault_of_first roots.now unusable }
{
    match (roots, unusable) {
        ([], _) => Some(TextFault::NoRoot),
        (_, Some(root)) => Some(TextFault::NoSwitch(root)),
        (_, None) => None,
    }
}

/// Returns the first of `roots` that is not a usable switch, or `None` if all are usable.
fn first_unusable<S: Source, R: InputReader<S>>(
    roots: &[Guid],
    reader: &R,
    told: &R::Told,
) -> Option<Guid>
    ensures { result ≡ first_unusable ((R.reader reader.now).has_switch told.now) roots.now }
{
    roots
        .iter()
        .copied()
        .find(|root| !reader.has_switch(told, *root))
}
