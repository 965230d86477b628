//! The ports by which packets leave a switch towards other switches.
ghost use Rattle.std.specs.Prelude.{◌≡◌, ◌<◌, ◌^◌, ℕ, [], All, IfOk, IsTrue, None, OnOk, is_some};
ghost use Rattle.std.specs.Prelude.{length, map, slice_index, slice_index_or};
ghost use Rattle.std.specs.Prelude.{unwrap_or};
ghost use Rattle.spread_labels.specs.TargetSet.{EachTarget};
ghost use Rattle.spread_labels.specs.MarkSets.{picked};
ghost use Rattle.std.specs.Option.{option_copied};
ghost use Rattle.spread_routes.specs.AdapterChoices.{choice_towards};
ghost use Rattle.spread_routes.specs.Spread.{number_by};
ghost use Rattle.spread_routes.specs.Exits.{port_by, port_turn, with_entries};

use crate::adapter_choices::{AdapterChoices, in_turn};
use crate::lid_digit::LidDigit;
use balanced_choices::RoundRobin;
use port_graph::Edge;
use smp_bytes::{Lid, PortNum};
use spread_labels::{CandidateLists, TargetSet};
use std::alloc::{AllocError, Global};
use std::marker::Model;

/// The ports by which packets may leave a switch towards each of some targets, and how the port for a LID is chosen
/// among them.
#[derive(Drop)]
pub struct Exits<'s> {
    lists: CandidateLists,
    /// The targets towards which some candidate leads to a higher switch.
    higher: TargetSet,
    lid_digit: LidDigit,
    /// The choices for adapters, or `None` if loads are not balanced.
    choices: Option<&'s AdapterChoices>,
    /// The position of the switch.
    own: usize,
    /// The positions of the targets. The list may go on with other positions.
    targets: &'s [usize],
}

impl<'s> Model for Exits<'s> {
    ghost use Rattle.std.specs.Prelude.{◌<◌};
    ghost use Rattle.std.specs.Option.{option_copied};
    ghost use Rattle.spread_routes.specs.Exits.{ExitsValue};

    ghost Value = { ExitsValue };

    ghost view = { λ a. record {
      ports = a.lists;
      higher = a.higher;
      lid_digit = a.lid_digit;
      choices = option_copied a.choices;
      own = a.own;
      targets = a.targets.now;
    } };

    ghost invariant = { λ a. 0 < a.lid_digit.digit_weight };
}

impl<'s> Exits<'s> {
    /// Creates exits without ports, choices or targets. Returns an error if memory runs out.
    pub fn new(alloc: Global) -> Result<Self, AllocError>
        ensures ports { IfOk result (λ exits. EachTarget (λ k. slice_index_or exits.ports k [] ≡ [])) }
        ensures choices { IfOk result (λ exits. exits.choices ≡ None) }
        ensures targets { IfOk result (λ exits. exits.targets ≡ []) }
    {
        Ok(Exits {
            lists: CandidateLists::new(alloc)?,
            higher: TargetSet::none(),
            lid_digit: LidDigit {
                level: 0,
                digit_weight: 1,
                offset: 0,
            },
            choices: None,
            own: 0,
            targets: &[],
        })
    }

    /// Lets ports for LIDs be chosen at `own` towards `targets` by `choices` or, if this is `None`, by the LID digit.
    pub(crate) fn choose_by(
        &mut self,
        choices: Option<&'s AdapterChoices>,
        own: usize,
        targets: &'s [usize],
    )
        ensures choices { self.new.choices ≡ option_copied choices.entry }
        ensures own { self.new.own ≡ own }
        ensures targets { self.new.targets ≡ targets.now }
        ensures ports { self.new.ports ≡ self.old.ports }
        ensures higher { self.new.higher ≡ self.old.higher }
        ensures lid_digit { self.new.lid_digit ≡ self.old.lid_digit }
    {
        self.choices = choices;
        self.own = own;
        self.targets = targets;
    }

    /// Sets the exits of a switch: `edges[i]` is a candidate towards each target in `sets[i]`. `higher` has the targets
    /// for which a candidate leads to a higher switch.
    pub(crate) fn find(
        &mut self,
        lid_digit: LidDigit,
        higher: TargetSet,
        edges: &[Edge],
        sets: &[TargetSet],
    ) -> Result<(), AllocError>
        requires weight { 0 < lid_digit.digit_weight }
        requires all { length sets.now ≡ length edges.now }
        ensures ports { OnOk result (EachTarget (λ k. slice_index_or self.new.ports k []
            ≡ map (λ edge. edge.port) (picked k sets.now edges.now))) }
        ensures higher { self.new.higher ≡ higher }
        ensures lid_digit { self.new.lid_digit ≡ lid_digit }
        ensures choices { self.new.choices ≡ self.old.choices }
        ensures own { self.new.own ≡ self.old.own }
        ensures targets { self.new.targets ≡ self.old.targets }
    {
        self.lid_digit = lid_digit;
        self.higher = higher;
        self.lists.find(edges, sets)
    }

    /// Writes, in the entry of each of `lids`, the port by which packets for the LID leave towards `target`, or `none`
    /// if no port leads there. The port is chosen by the LID's number in `numbers`. `target` must be less than 64.
    /// `entries` and `numbers` must be equally long, and each LID must be within them. Takes time linear in the number
    /// of LIDs.
    pub fn write(&self, target: usize, lids: &[Lid], numbers: &[u16], none: u8, entries: &mut [u8])
        requires target { target < 64 }
        requires lids { All (λ lid. lid < length entries.old) lids.now }
        requires numbers { length numbers.now ≡ length entries.old }
        ensures { entries.new
            ≡ with_entries (λ lid. unwrap_or (port_by self.now target (slice_index numbers.now lid)) none)
            entries.old lids.now }
    {
        let ports = self.lists.at(target);
        if ports.is_empty() {
            write_none(entries, lids, none);
            return;
        }
        let is_higher = self.higher.has(target);
        let Some(choices) = self.choices else {
            write_ports(entries, lids, numbers, ports, &self.lid_digit, is_higher);
            return;
        };
        let target = self.position_of(target);
        if choices.are_counted() {
            write_chosen(entries, lids, numbers, ports, choices, self.own, target);
        } else {
            let weight = self.lid_digit.weight_if(is_higher);
            write_in_turn(
                entries, lids, numbers, ports, choices, weight, self.own, target,
            );
        }
    }

    /// Returns the position of the target with the index `target`, or 0 if there is no such target.
    fn position_of(&self, target: usize) -> usize
        ensures { result ≡ slice_index self.now.targets target }
    {
        match self.targets.get(target) {
            Some(position) => *position,
            None => 0,
        }
    }
}

/// Writes, in the entry of each of `lids`, the one of `ports` that is chosen by the LID's number in `numbers`, at the
/// position `own` towards the position `target`, as `choices` says.
fn write_chosen(
    entries: &mut [u8],
    lids: &[Lid],
    numbers: &[u16],
    ports: &[PortNum],
    choices: &AdapterChoices,
    own: usize,
    target: usize,
)
    requires counted { IsTrue (is_some choices.now.counted) }
    requires ports { 0 < length ports.now }
    requires lids { All (λ lid. lid < length entries.old) lids.now }
    requires numbers { length numbers.now ≡ length entries.old }
    ensures { (weight : ℕ) → entries.new ≡ with_entries
        (λ lid. port_turn ports.now (choice_towards choices.now weight (slice_index numbers.now lid) own target))
        entries.old lids.now }
{
    for lid in lids {
        let lid = usize::from(lid.number());
        let choice = choices.towards(number_of(numbers, lid), own, target);
        entries[lid] = ports[choice % ports.len()].number();
    }
}

/// Writes, in the entry of each of `lids`, the one of `ports` that is the first choice for the LID's number in
/// `numbers`, at the position `own` towards the position `target`. `weight` is the weight of the digit that counts.
fn write_in_turn(
    entries: &mut [u8],
    lids: &[Lid],
    numbers: &[u16],
    ports: &[PortNum],
    choices: &AdapterChoices,
    weight: usize,
    own: usize,
    target: usize,
)
    requires counted { choices.now.counted ≡ None }
    requires ports { 0 < length ports.now }
    requires lids { All (λ lid. lid < length entries.old) lids.now }
    requires numbers { length numbers.now ≡ length entries.old }
    ensures { entries.new ≡ with_entries
        (λ lid. port_turn ports.now (choice_towards choices.now weight (slice_index numbers.now lid) own target))
        entries.old lids.now }
{
    let first = choices.first_number(target);
    let count = choices.count_at(target);
    let mut turn = RoundRobin::first(weight, own, ports.len());
    for lid in lids {
        let lid = usize::from(lid.number());
        turn.go_to(first + in_turn(count, number_of(numbers, lid)));
        entries[lid] = ports[turn.choice()].number();
    }
}

/// Writes `none` in the entry of each of `lids`.
fn write_none(entries: &mut [u8], lids: &[Lid], none: u8)
    requires { All (λ lid. lid < length entries.old) lids.now }
    ensures { entries.new ≡ with_entries (λ lid. none) entries.old lids.now }
{
    for lid in lids {
        entries[usize::from(lid.number())] = none;
    }
}

/// Writes, in the entry of each of `lids`, the one of `ports` that is chosen by `lid_digit` and the LID's number in
/// `numbers`. `is_higher` says whether one of the ports leads to a higher switch.
fn write_ports(
    entries: &mut [u8],
    lids: &[Lid],
    numbers: &[u16],
    ports: &[PortNum],
    lid_digit: &LidDigit,
    is_higher: bool,
)
    requires weight { 0 < lid_digit.now.digit_weight }
    requires ports { 0 < length ports.now }
    requires lids { All (λ lid. lid < length entries.old) lids.now }
    requires numbers { length numbers.now ≡ length entries.old }
    ensures { entries.new ≡ with_entries
        (λ lid. port_turn ports.now (number_by lid_digit.now is_higher (slice_index numbers.now lid)))
        entries.old lids.now }
{
    let mut turn = lid_digit.turn(is_higher, ports.len());
    for lid in lids {
        let lid = usize::from(lid.number());
        turn.go_to(number_of(numbers, lid));
        entries[lid] = ports[turn.choice()].number();
    }
}

/// Returns the number of `lid`.
fn number_of(numbers: &[u16], lid: usize) -> usize
    requires { lid < length numbers.now }
    ensures number { result ≡ slice_index numbers.now lid }
    ensures small { result < 2 ^ 16 }
{
    usize::from(numbers[lid])
}
