//! The head of a file: its magic and, in newer store files, a header with the floor after the magic.
ghost use Rattle.std.specs.Prelude.{◌≡◌, length, Some};
ghost use Rattle.record_file.specs.Head.{floor_told as floor_in_header, head_bytes, header};
ghost use Rattle.record_file.specs.declared.format.Format.TheVariants.{Cells};

use crate::numbers::u32_of;
use smp_bytes::Generation;

/// The number of bytes of a magic.
pub(crate) const MAGIC_LEN: usize = 8;

/// The number of bytes of a header.
pub(crate) const HEADER_LEN: usize = 8;

/// Returns the head of a store file with `floor`.
pub(crate) fn head_of(floor: Generation) -> [u8; MAGIC_LEN + HEADER_LEN]
    ensures { result ≡ head_bytes (Cells (Some floor)) }
{
    let mut bytes = [0; MAGIC_LEN + HEADER_LEN];
    bytes[..MAGIC_LEN].copy_from_slice(b"IBSMSTO2");
    bytes[MAGIC_LEN..].copy_from_slice(&header_of(floor));
    bytes
}

/// Returns the floor if `bytes` are a header, and otherwise `None`.
pub(crate) fn floor_told(bytes: &[u8]) -> Option<Generation>
    requires { length bytes.now ≡ 8 }
    ensures { result ≡ floor_in_header bytes.now }
{
    let floor = Generation::new(u32_of(&bytes[..4]))?;
    if header_of(floor).as_slice() == bytes {
        Some(floor)
    } else {
        None
    }
}

/// Returns the header of `floor`: the floor in four bytes, and four zero bytes.
fn header_of(floor: Generation) -> [u8; HEADER_LEN]
    ensures { result ≡ header floor }
{
    let mut bytes = [0; HEADER_LEN];
    bytes[..4].copy_from_slice(&floor.number().to_be_bytes());
    bytes
}
