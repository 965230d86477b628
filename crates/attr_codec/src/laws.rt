//! The laws of attributes: decoding undoes encoding, and encoding keeps what was decoded.
ghost use Rattle.std.specs.Prelude.{◌≡◌};
ghost use Rattle.attr_codec.specs.NodeTypeNumber.{number_of_type, type_of_number};
ghost use Rattle.attr_codec.specs.Numbering.{AreInverse};
ghost use Rattle.attr_codec.specs.PortInfo.{number_of_state, state_of_number};
ghost use Rattle.attr_codec.specs.Spelling.{KeepsAllBytes, KeepsFirstBytes, SpellsEachValue};

use crate::attribute::Attribute;
use crate::lft_block::LftBlock;
use crate::node_description::NodeDescription;
use crate::node_info::NodeInfo;
use crate::port_info::PortInfo;
use crate::sm_info::SmInfo;
use crate::switch_info::SwitchInfo;

/// If each part of an attribute's value fits in its field, the value is read back from the bytes that spell it.
pub fn decode_undoes_encode<A: Attribute>()
    ensures { (value : A) → A.is_value value → A.value_in (A.bytes_of value) ≡ value }
{}

/// If 64 bytes are decoded as NodeInfo and encoded again, the first 40 bytes, which contain the fields, stay the same.
/// The 24 reserved bytes become 0.
pub fn node_info_keeps_its_fields()
    ensures { KeepsFirstBytes 40
        ⟦<NodeInfo as Attribute>⟧.value_in
        ⟦<NodeInfo as Attribute>⟧.bytes_of }
{}

/// If 64 bytes are decoded as SMInfo and encoded again, the first 21 bytes, which contain the fields, stay the same.
/// The 43 reserved bytes become 0.
pub fn sm_info_keeps_its_fields()
    ensures { KeepsFirstBytes 21
        ⟦<SmInfo as Attribute>⟧.value_in
        ⟦<SmInfo as Attribute>⟧.bytes_of }
{}

/// If 64 bytes are decoded as PortInfo and encoded again, all bytes stay the same, even those outside the named fields.
pub fn port_info_keeps_all_bytes()
    ensures { KeepsAllBytes
        ⟦<PortInfo as Attribute>⟧.value_in
        ⟦<PortInfo as Attribute>⟧.bytes_of }
{}

/// If 64 bytes are decoded as SwitchInfo and encoded again, all bytes stay the same, even those outside the named
/// fields.
pub fn switch_info_keeps_all_bytes()
    ensures { KeepsAllBytes
        ⟦<SwitchInfo as Attribute>⟧.value_in
        ⟦<SwitchInfo as Attribute>⟧.bytes_of }
{}

/// If 64 bytes are decoded as a block of a linear forwarding table and encoded again, all bytes stay the same.
pub fn lft_block_keeps_all_bytes()
    ensures { KeepsAllBytes
        ⟦<LftBlock as Attribute>⟧.value_in
        ⟦<LftBlock as Attribute>⟧.bytes_of }
{}

/// If 64 bytes are decoded as NodeDescription and encoded again, all bytes stay the same.
pub fn node_description_keeps_all_bytes()
    ensures { KeepsAllBytes
        ⟦<NodeDescription as Attribute>⟧.value_in
        ⟦<NodeDescription as Attribute>⟧.bytes_of }
{}

/// If each part of a NodeInfo fits in its field, the 64 bytes that spell it contain each part at its offset. The last
/// 24 bytes are 0.
pub fn node_info_is_spelled_by_its_fields()
    ensures { SpellsEachValue 40
        ⟦<NodeInfo as Attribute>⟧.value_in
        ⟦<NodeInfo as Attribute>⟧.bytes_of
        ⟦<NodeInfo as Attribute>⟧.is_value }
{}

/// If each part of an SMInfo fits in its field, the 64 bytes that spell it contain each part at its offset. The last 43
/// bytes are 0.
pub fn sm_info_is_spelled_by_its_fields()
    ensures { SpellsEachValue 21
        ⟦<SmInfo as Attribute>⟧.value_in
        ⟦<SmInfo as Attribute>⟧.bytes_of
        ⟦<SmInfo as Attribute>⟧.is_value }
{}

/// Each node type is read from its own number and from no other.
pub fn node_types_have_numbers()
    ensures { AreInverse number_of_type type_of_number }
{}

/// Each port state is read from its own number and from no other.
pub fn port_states_have_numbers()
    ensures { AreInverse number_of_state state_of_number }
{}
