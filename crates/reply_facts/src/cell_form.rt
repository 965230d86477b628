//! The form of a cell: one byte in which a sighting stores the kind of its key and a part of its cell. This part is a
//! node type, a port's state, or that the cell is disputed.
ghost use Rattle.std.specs.Prelude.{◌≡◌};
ghost use Rattle.reply_facts.specs.CellForm.{disputed_form, form_kind, form_of, known_form};

use crate::key::Key;
use crate::value::Value;
use fact_join::Cell;
use smp_bytes::NodeType;

/// The kind of a key, with the node type of a node, the state of a port, or that the cell is disputed.
#[derive(Clone, Copy, Debug)]
pub(crate) enum CellForm {
    SwitchNode,
    AdapterNode,
    RouterNode,
    GuidOfPort,
    LinkEnd,
    UpPort,
    DownPort,
    ClaimedLid,
    RoomOfTable,
    DisputedNode,
    DisputedGuid,
    DisputedLink,
    DisputedPort,
    DisputedClaim,
    DisputedRoom,
}

impl CellForm {
    /// Returns the number of the key's kind, as `Key::kind` does.
    pub(crate) fn kind(self) -> u8
        ensures { result ≡ form_kind self }
    {
        match self {
            CellForm::SwitchNode
            | CellForm::AdapterNode
            | CellForm::RouterNode
            | CellForm::DisputedNode => 1,
            CellForm::GuidOfPort | CellForm::DisputedGuid => 2,
            CellForm::LinkEnd | CellForm::DisputedLink => 3,
            CellForm::UpPort | CellForm::DownPort | CellForm::DisputedPort => 4,
            CellForm::ClaimedLid | CellForm::DisputedClaim => 5,
            CellForm::RoomOfTable | CellForm::DisputedRoom => 6,
        }
    }
}

/// Returns the form of `cell`, whose key is `key`.
pub(crate) fn form_of(key: &Key, cell: &Cell<Value>) -> CellForm
    ensures { result ≡ form_of key.now cell.now }
{
    match cell {
        Cell::Known(_, value) => known_form(value),
        Cell::Disputed(_) => disputed_form(key),
    }
}

/// Returns the form of a known cell with `value`.
fn known_form(value: &Value) -> CellForm
    ensures { result ≡ known_form value.now }
{
    match value {
        Value::Kind(NodeType::Switch, _) => CellForm::SwitchNode,
        Value::Kind(NodeType::ChannelAdapter, _) => CellForm::AdapterNode,
        Value::Kind(NodeType::Router, _) => CellForm::RouterNode,
        Value::Guid(_) => CellForm::GuidOfPort,
        Value::Peer(..) => CellForm::LinkEnd,
        Value::Up(true) => CellForm::UpPort,
        Value::Up(false) => CellForm::DownPort,
        Value::Lid(_) => CellForm::ClaimedLid,
        Value::Count(_) => CellForm::RoomOfTable,
    }
}

/// Returns the form of a disputed cell whose key is `key`.
fn disputed_form(key: &Key) -> CellForm
    ensures { result ≡ disputed_form key.now }
{
    match key {
        Key::Node(_) => CellForm::DisputedNode,
        Key::PortGuid(..) => CellForm::DisputedGuid,
        Key::Link(..) => CellForm::DisputedLink,
        Key::Port(..) => CellForm::DisputedPort,
        Key::Claim(..) => CellForm::DisputedClaim,
        Key::Cap(_) => CellForm::DisputedRoom,
    }
}
