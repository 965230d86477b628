ghost use Rattle.std.specs.Prelude.{◌≡◌, ◌↔◌, IsTrue, IsSome, IfSome, Some};
ghost use Rattle.fact_join.specs.declared.cell.Cell.TheVariants.{Known, Disputed};
ghost use Rattle.reply_facts.specs.CellForm.{number_of, other_of};
ghost use Rattle.reply_facts.specs.Key.{key_cmp};
ghost use Rattle.reply_facts.specs.Known.{value_in};

use crate::cell_form::{CellForm, form_of};
use crate::key::Key;
use crate::value::Value;
use fact_join::Cell;
use smp_bytes::{Generation, Guid, Lid, NodeType, PortNum};
use std::cmp::Ordering;
use std::marker::Model;

/// A key with a cell, as it is in a report or in a store. Takes 24 bytes, since long lists contain and move sightings.
#[derive(Clone, Copy, Debug)]
pub struct Sighting {
    /// The GUID of the key.
    guid: Guid,
    /// The GUID of the value, or 0 if the value has no GUID or the cell is disputed.
    other: Guid,
    generation: Generation,
    /// The value's number of ports, port, LID or table size, or 0 if the value has none of these or the cell is
    /// disputed.
    number: u16,
    /// The port of the key, or 0 if the key has no port.
    port: PortNum,
    form: CellForm,
}

impl Model for Sighting {
    ghost use Rattle.fact_join.specs.declared.cell.Cell.{Cell};
    ghost use Rattle.fact_join.specs.Cell.{generation_of};
    ghost use Rattle.reply_facts.specs.declared.key.Key.{Key};
    ghost use Rattle.reply_facts.specs.declared.value.Value.{Value as FactValue};
    ghost use Rattle.reply_facts.specs.CellForm.{IsSpelled, cell_in, form_of, key_in, number_of, other_of};
    ghost use Rattle.reply_facts.specs.CellForm.{same_form, same_generation, same_guid};
    ghost use Rattle.reply_facts.specs.Key.{key_guid, key_port};
    ghost use Rattle.reply_facts.specs.Sighting.{IsSighting};

    ghost Value = { Key × Cell FactValue };

    ghost view = { λ s. (key_in s.form s.guid s.port, cell_in s.form s.generation s.other s.number) };

    ghost invariant = { λ s. IsSighting (key_in s.form s.guid s.port, cell_in s.form s.generation s.other s.number)
        × IsSpelled s.form s.guid s.other s.generation s.number s.port };

    ghost inverse = { λ p. record {
      guid = key_guid p.0;
      other = other_of p.1;
      generation = generation_of p.1;
      number = number_of p.1;
      port = key_port p.0;
      form = form_of p.0 p.1;
    } };

    ghost inverse_ok = { λ s h i. record {
      guid = same_guid s.form s.guid s.port i;
      other = h.1.other_is i;
      generation = same_generation s.form s.generation s.other s.number i;
      number = h.1.number_is i;
      port = h.1.port_is i;
      form = same_form s.form s.guid s.generation s.other s.number s.port i;
    } };
}

impl Sighting {
    ghost use Rattle.reply_facts.specs.Sighting.{IsSighting};

    /// Creates a sighting of `cell` under `key`. Returns `None` if the key's port is out of range, if the value is not
    /// of the key's kind, or if a number in the value is out of range.
    pub fn new(key: Key, cell: Cell<Value>) -> Option<Self>
        ensures exact { IsSome result ↔ IsSighting (key, cell) }
        ensures value { IfSome result (λ s. s ≡ (key, cell)) }
    {
        if is_sighting(&key, &cell) {
            Some(Sighting::of(&key, &cell))
        } else {
            None
        }
    }

    /// Creates a sighting of `value`, as reported in `generation`, under `key`.
    pub(crate) fn known(generation: Generation, key: Key, value: Value) -> Self
        requires { IsSighting (key, Known generation value) }
        ensures { result ≡ (key, Known generation value) }
    {
        Sighting::of(&key, &Cell::Known(generation, value))
    }

    /// Creates a sighting of `cell` under `key`.
    fn of(key: &Key, cell: &Cell<Value>) -> Self
        requires { IsSighting (key.now, cell.now) }
        ensures { result ≡ (key.now, cell.now) }
    {
        Sighting {
            guid: key.guid(),
            other: other_of(cell),
            generation: cell.generation(),
            number: number_of(cell),
            port: key.port(),
            form: form_of(key, cell),
        }
    }

    /// Returns the key, which says what the fact is about.
    pub fn key(&self) -> Key
        ensures value { result ≡ self.now.0 }
        ensures in_range { IsSighting self.now }
    {
        match self.form {
            CellForm::SwitchNode
            | CellForm::AdapterNode
            | CellForm::RouterNode
            | CellForm::DisputedNode => Key::Node(self.guid),
            CellForm::GuidOfPort | CellForm::DisputedGuid => Key::PortGuid(self.guid, self.port),
            CellForm::LinkEnd | CellForm::DisputedLink => Key::Link(self.guid, self.port),
            CellForm::UpPort | CellForm::DownPort | CellForm::DisputedPort => {
                Key::Port(self.guid, self.port)
            }
            CellForm::ClaimedLid | CellForm::DisputedClaim => Key::Claim(self.guid, self.port),
            CellForm::RoomOfTable | CellForm::DisputedRoom => Key::Cap(self.guid),
        }
    }

    /// Compares the key of this sighting with `other`.
    pub fn key_cmp(&self, other: &Key) -> Ordering
        ensures { result ≡ key_cmp self.now.0 other.now }
    {
        let sort_key = [
            u64::from(self.form.kind()),
            self.guid.number(),
            u64::from(self.port.number()),
        ];
        sort_key.cmp(&other.sort_key())
    }

    /// Returns the cell: `Known` with its generation and value, or `Disputed` with its generation.
    pub fn cell(&self) -> Cell<Value>
        ensures value { result ≡ self.now.1 }
        ensures in_range { IsSighting self.now }
    {
        match self.value() {
            Some(value) => Cell::Known(self.generation, value),
            None => Cell::Disputed(self.generation),
        }
    }

    /// Returns the value of the cell, or `None` if the cell is disputed.
    pub fn value(&self) -> Option<Value>
        ensures { result ≡ value_in (Some self.now.1) }
    {
        match self.form {
            CellForm::SwitchNode => Some(Value::Kind(NodeType::Switch, self.number as u8)),
            CellForm::AdapterNode => Some(Value::Kind(NodeType::ChannelAdapter, self.number as u8)),
            CellForm::RouterNode => Some(Value::Kind(NodeType::Router, self.number as u8)),
            CellForm::GuidOfPort => Some(Value::Guid(self.other)),
            CellForm::LinkEnd => Some(Value::Peer(self.other, PortNum::new(self.number as u8))),
            CellForm::UpPort => Some(Value::Up(true)),
            CellForm::DownPort => Some(Value::Up(false)),
            CellForm::ClaimedLid => Some(Value::Lid(Lid::new(self.number))),
            CellForm::RoomOfTable => Some(Value::Count(self.number)),
            CellForm::DisputedNode
            | CellForm::DisputedGuid
            | CellForm::DisputedLink
            | CellForm::DisputedPort
            | CellForm::DisputedClaim
            | CellForm::DisputedRoom => None,
        }
    }
}

/// Returns the GUID of the value of `cell`, or 0 if the value has no GUID or `cell` is disputed.
fn other_of(cell: &Cell<Value>) -> Guid
    ensures { result ≡ other_of cell.now }
{
    match cell {
        Cell::Known(_, Value::Guid(guid) | Value::Peer(guid, _)) => *guid,
        _ => Guid::new(0),
    }
}

/// Returns the number in the value of `cell`, or 0 if the value has no number or `cell` is disputed.
fn number_of(cell: &Cell<Value>) -> u16
    ensures { result ≡ number_of cell.now }
{
    match cell {
        Cell::Known(_, Value::Kind(_, ports)) => u16::from(*ports),
        Cell::Known(_, Value::Peer(_, port)) => u16::from(port.number()),
        Cell::Known(_, Value::Lid(lid)) => lid.number(),
        Cell::Known(_, Value::Count(count)) => *count,
        _ => 0,
    }
}

/// Returns a sighting of a disputed node, with GUID 0 and generation 1.
impl Default for Sighting {
    ghost use Rattle.reply_facts.specs.declared.key.Key.TheVariants.{Node};

    ghost is_default = { λ s. s ≡ (Node 0, Disputed 1) };

    fn default() -> Self {
        Sighting::of(
            &Key::Node(Guid::new(0)),
            &Cell::Disputed(Generation::new(1).unwrap()),
        )
    }
}

ghost use Rattle.reply_facts.specs.Sighting.{is_sighting, is_key, is_cell_of, is_value_of, is_generation};
ghost use Rattle.reply_facts.specs.Sighting.{is_guid, is_any_port, is_cabled_port};

fn is_sighting(key: &Key, cell: &Cell<Value>) -> bool
    ensures { result ≡ is_sighting (key.now, cell.now) }
{
    is_key(key) && is_generation(cell.generation()) && is_cell_of(key, cell)
}

fn is_key(key: &Key) -> bool
    ensures { result ≡ is_key key.now }
{
    match *key {
        Key::Node(node) | Key::Cap(node) => is_guid(node),
        Key::Link(node, port) => is_guid(node) && is_cabled_port(port.number()),
        Key::PortGuid(node, port) | Key::Port(node, port) | Key::Claim(node, port) => {
            is_guid(node) && is_any_port(port)
        }
    }
}

fn is_cell_of(key: &Key, cell: &Cell<Value>) -> bool
    ensures { result ≡ is_cell_of key.now cell.now }
{
    match cell {
        Cell::Known(_, value) => is_value_of(key, value),
        Cell::Disputed(_) => true,
    }
}

fn is_value_of(key: &Key, value: &Value) -> bool
    ensures { result ≡ is_value_of key.now value.now }
{
    match (key, *value) {
        (Key::Node(_), Value::Kind(_, ports)) => is_cabled_port(ports),
        (Key::PortGuid(..), Value::Guid(guid)) => is_guid(guid),
        (Key::Link(..), Value::Peer(node, port)) => is_guid(node) && is_cabled_port(port.number()),
        (Key::Port(..), Value::Up(_)) => true,
        (Key::Claim(..), Value::Lid(lid)) => matches!(lid.number(), 0..=u16::MAX),
        (Key::Cap(_), Value::Count(count)) => matches!(count, 0..=u16::MAX),
        _ => false,
    }
}

fn is_generation(generation: Generation) -> bool
    ensures { result ≡ is_generation generation }
{
    matches!(generation.number(), 1..=u32::MAX)
}

fn is_guid(guid: Guid) -> bool
    ensures { result ≡ is_guid guid }
{
    matches!(guid.number(), 0..=u64::MAX)
}

fn is_any_port(port: PortNum) -> bool
    ensures { result ≡ is_any_port port }
{
    matches!(port.number(), 0..=254)
}

/// Returns whether `port` is from 1 to 254: a port that can have a cable, or a possible number of ports of a node.
pub(crate) fn is_cabled_port(port: u8) -> bool
    ensures { result ≡ is_cabled_port port }
{
    matches!(port, 1..=254)
}
