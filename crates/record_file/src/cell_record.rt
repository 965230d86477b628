//! The record of a cell in a store file: 32 bytes that spell it.
ghost use Rattle.std.specs.Prelude.{◌≡◌, length, option_and_then};
ghost use Rattle.record_file.specs.CellRecord.{candidate, cell_of as cell_in, cell_value_bytes, filled_up};
ghost use Rattle.record_file.specs.CellRecord.{if_sighting, key_of as key_with, record_bytes, state_byte};
ghost use Rattle.record_file.specs.CellRecord.{value_bytes, value_of as value_in};

use crate::numbers::{u16_of, u32_of, u64_of};
use attr_codec::NodeTypeNumber;
use fact_store::{Cell, Key, Sighting, Value};
use smp_bytes::{Generation, Guid, Lid, PortNum};

/// The number of bytes of a record. Its parts are the kind, the state, the port, a zero byte, the generation, the GUID
/// and 16 value bytes.
pub(crate) const RECORD_LEN: usize = 32;

/// The number of value bytes of a record. The bytes after the value are 0. For a disputed cell all value bytes are 0.
const VALUE_LEN: usize = 16;

/// Returns the record that spells `sighting`.
pub(crate) fn record_of(sighting: &Sighting) -> [u8; RECORD_LEN]
    ensures { result ≡ record_bytes sighting.now }
{
    let key = sighting.key();
    let cell = sighting.cell();
    let mut bytes = [0; RECORD_LEN];
    bytes[0] = key.kind();
    bytes[1] = state_byte(&cell);
    bytes[2] = key.port().number();
    bytes[4..8].copy_from_slice(&cell.generation().number().to_be_bytes());
    bytes[8..16].copy_from_slice(&key.guid().number().to_be_bytes());
    bytes[16..].copy_from_slice(&cell_value_bytes(&cell));
    bytes
}

/// Returns 1 for a known cell, and 2 for a disputed one.
fn state_byte(cell: &Cell<Value>) -> u8
    ensures { result ≡ state_byte cell.now }
{
    match cell {
        Cell::Known(..) => 1,
        Cell::Disputed(_) => 2,
    }
}

/// Returns the value bytes of a record of `cell`.
fn cell_value_bytes(cell: &Cell<Value>) -> [u8; VALUE_LEN]
    ensures { result ≡ filled_up 16 (cell_value_bytes cell.now) }
{
    match cell {
        Cell::Known(_, value) => value_bytes(*value),
        Cell::Disputed(_) => [0; VALUE_LEN],
    }
}

/// Returns the value bytes that spell `value`, with zero bytes after it.
fn value_bytes(value: Value) -> [u8; VALUE_LEN]
    ensures { result ≡ filled_up 16 (value_bytes value) }
{
    let mut bytes = [0; VALUE_LEN];
    match value {
        Value::Kind(kind, ports) => {
            bytes[0] = NodeTypeNumber::from(kind).number();
            bytes[1] = ports;
        }
        Value::Guid(guid) => bytes[..8].copy_from_slice(&guid.number().to_be_bytes()),
        Value::Peer(guid, port) => {
            bytes[..8].copy_from_slice(&guid.number().to_be_bytes());
            bytes[8] = port.number();
        }
        Value::Up(up) => bytes[0] = u8::from(up),
        Value::Lid(lid) => bytes[..2].copy_from_slice(&lid.number().to_be_bytes()),
        Value::Count(count) => bytes[..2].copy_from_slice(&count.to_be_bytes()),
    }
    bytes
}

/// Returns the cell that the record `bytes` spells, or `None` if `bytes` do not spell a cell.
#[tactic(auto, unfolding(crate::specs::CellRecord::cell_of))]
pub(crate) fn cell_of(bytes: &[u8]) -> Option<Sighting>
    requires { length bytes.now ≡ 32 }
    ensures { result ≡ cell_in bytes.now }
{
    let sighting = sighting_in(bytes)?;
    if record_of(&sighting).as_slice() == bytes {
        Some(sighting)
    } else {
        None
    }
}

/// Returns the cell of the record `bytes`, or `None` if the cell's key, generation or value is reserved or out of
/// range. Does not check the bytes that have to be 0, and takes any state byte other than 1 to mean disputed.
fn sighting_in(bytes: &[u8]) -> Option<Sighting>
    requires { length bytes.now ≡ 32 }
    ensures { result ≡ option_and_then if_sighting (candidate bytes.now) }
{
    let key = key_of(bytes[0], u64_of(&bytes[8..16]), bytes[2])?;
    let generation = Generation::new(u32_of(&bytes[4..8]))?;
    let cell = if bytes[1] == 1 {
        Cell::Known(generation, value_of(&key, &bytes[16..])?)
    } else {
        Cell::Disputed(generation)
    };
    Sighting::new(key, cell)
}

/// Returns the key with the kind byte `kind`, `guid` and `port`, or `None` if `kind` is not from 1 to 6.
fn key_of(kind: u8, guid: u64, port: u8) -> Option<Key>
    ensures { result ≡ key_with kind guid port }
{
    let node = Guid::new(guid);
    let port = PortNum::new(port);
    match kind {
        1 => Some(Key::Node(node)),
        2 => Some(Key::PortGuid(node, port)),
        3 => Some(Key::Link(node, port)),
        4 => Some(Key::Port(node, port)),
        5 => Some(Key::Claim(node, port)),
        6 => Some(Key::Cap(node)),
        _ => None,
    }
}

/// Returns the value in `bytes`, of the kind that `key` has, or `None` if it is a reserved node type.
fn value_of(key: &Key, bytes: &[u8]) -> Option<Value>
    requires { length bytes.now ≡ 16 }
    ensures { result ≡ value_in key.now bytes.now }
{
    Some(match *key {
        Key::Node(_) => Value::Kind(NodeTypeNumber::new(bytes[0]).node_type()?, bytes[1]),
        Key::PortGuid(..) => Value::Guid(Guid::new(u64_of(&bytes[..8]))),
        Key::Link(..) => Value::Peer(Guid::new(u64_of(&bytes[..8])), PortNum::new(bytes[8])),
        Key::Port(..) => Value::Up(bytes[0] == 1),
        Key::Claim(..) => Value::Lid(Lid::new(u16_of(&bytes[..2]))),
        Key::Cap(_) => Value::Count(u16_of(&bytes[..2])),
    })
}
