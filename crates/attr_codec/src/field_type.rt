//! Fields of an attribute: numbers at an offset given by a const parameter.
ghost use Rattle.std.specs.Prelude.{◌≡◌, ℕ, ◌+◌, ◌^◌, ◌<◌, ◌≤◌};
ghost use Rattle.smp_bytes.specs.Field.{number_in, with_number};

use crate::node_type_number::NodeTypeNumber;
use crate::vendor_id::VendorId;
use smp_bytes::wire::{
    put_u8, put_u16, put_u24, put_u32, put_u64, u8_at, u16_at, u24_at, u32_at, u64_at,
};
use smp_bytes::{Guid, Lid, PortNum};

/// A type of field: a number with a fixed number of bytes.
pub trait FieldType: Copy {
    /// The number of bytes of a field of this type.
    ghost len: { ℕ };

    /// The number of a value.
    ghost number: { Self → ℕ };

    fn read_at(bytes: &[u8; 64], at: usize) -> Self
        requires { at + len ≤ 64 }
        ensures read { number result ≡ number_in (record { at = at; len = len }) bytes.now }
        ensures fits { number result < 256 ^ len };

    fn write_at(self, bytes: &mut [u8; 64], at: usize)
        requires { at + len ≤ 64 }
        ensures written { bytes.new
            ≡ with_number (record { at = at; len = len }) (number self) bytes.old }
        ensures fits { number self < 256 ^ len };
}

/// Reads the field whose first byte is at offset `AT`. The field must end within the 64 bytes.
pub fn read<T: FieldType, const AT: usize>(bytes: &[u8; 64]) -> T
    requires { AT + T.len ≤ 64 }
    ensures read { T.number result ≡ number_in (record { at = AT; len = T.len }) bytes.now }
    ensures fits { T.number result < 256 ^ T.len }
{
    T::read_at(bytes, AT)
}

/// Writes `value` into the field whose first byte is at offset `AT`. Leaves all other bytes unchanged. The field must
/// end within the 64 bytes.
pub fn write<T: FieldType, const AT: usize>(value: T, bytes: &mut [u8; 64])
    requires { AT + T.len ≤ 64 }
    ensures written { bytes.new
        ≡ with_number (record { at = AT; len = T.len }) (T.number value) bytes.old }
    ensures fits { T.number value < 256 ^ T.len }
{
    value.write_at(bytes, AT);
}

impl FieldType for u8 {
    ghost len = { 1 };

    ghost number = { λ n. n };

    fn read_at(bytes: &[u8; 64], at: usize) -> Self {
        u8_at(bytes, at)
    }

    fn write_at(self, bytes: &mut [u8; 64], at: usize) {
        put_u8(bytes, at, self);
    }
}

impl FieldType for u16 {
    ghost len = { 2 };

    ghost number = { λ n. n };

    fn read_at(bytes: &[u8; 64], at: usize) -> Self {
        u16_at(bytes, at)
    }

    fn write_at(self, bytes: &mut [u8; 64], at: usize) {
        put_u16(bytes, at, self);
    }
}

impl FieldType for u32 {
    ghost len = { 4 };

    ghost number = { λ n. n };

    fn read_at(bytes: &[u8; 64], at: usize) -> Self {
        u32_at(bytes, at)
    }

    fn write_at(self, bytes: &mut [u8; 64], at: usize) {
        put_u32(bytes, at, self);
    }
}

impl FieldType for u64 {
    ghost len = { 8 };

    ghost number = { λ n. n };

    fn read_at(bytes: &[u8; 64], at: usize) -> Self {
        u64_at(bytes, at)
    }

    fn write_at(self, bytes: &mut [u8; 64], at: usize) {
        put_u64(bytes, at, self);
    }
}

impl FieldType for Lid {
    ghost len = { 2 };

    ghost number = { λ n. n };

    fn read_at(bytes: &[u8; 64], at: usize) -> Self {
        Lid::new(u16_at(bytes, at))
    }

    fn write_at(self, bytes: &mut [u8; 64], at: usize) {
        put_u16(bytes, at, self.number());
    }
}

impl FieldType for Guid {
    ghost len = { 8 };

    ghost number = { λ n. n };

    fn read_at(bytes: &[u8; 64], at: usize) -> Self {
        Guid::new(u64_at(bytes, at))
    }

    fn write_at(self, bytes: &mut [u8; 64], at: usize) {
        put_u64(bytes, at, self.number());
    }
}

impl FieldType for PortNum {
    ghost len = { 1 };

    ghost number = { λ n. n };

    fn read_at(bytes: &[u8; 64], at: usize) -> Self {
        PortNum::new(u8_at(bytes, at))
    }

    fn write_at(self, bytes: &mut [u8; 64], at: usize) {
        put_u8(bytes, at, self.number());
    }
}

impl FieldType for NodeTypeNumber {
    ghost len = { 1 };

    ghost number = { λ n. n };

    fn read_at(bytes: &[u8; 64], at: usize) -> Self {
        NodeTypeNumber::new(u8_at(bytes, at))
    }

    fn write_at(self, bytes: &mut [u8; 64], at: usize) {
        put_u8(bytes, at, self.number());
    }
}

impl FieldType for VendorId {
    ghost len = { 3 };

    ghost number = { λ n. n };

    fn read_at(bytes: &[u8; 64], at: usize) -> Self {
        VendorId::from_u24(u24_at(bytes, at))
    }

    fn write_at(self, bytes: &mut [u8; 64], at: usize) {
        put_u24(bytes, at, self.number());
    }
}
