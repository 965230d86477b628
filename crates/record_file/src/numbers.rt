//! Numbers of several bytes, the most significant byte first.
ghost use Rattle.std.specs.Prelude.{◌≡◌, length};
ghost use Rattle.std.specs.Int.{from_be_bytes, w16, w32, w64};

pub(crate) fn u16_of(bytes: &[u8]) -> u16
    requires { length bytes.now ≡ 2 }
    ensures { result ≡ from_be_bytes w16 bytes.now }
{
    u16::from_be_bytes([bytes[0], bytes[1]])
}

pub(crate) fn u32_of(bytes: &[u8]) -> u32
    requires { length bytes.now ≡ 4 }
    ensures { result ≡ from_be_bytes w32 bytes.now }
{
    u32::from_be_bytes([bytes[0], bytes[1], bytes[2], bytes[3]])
}

pub(crate) fn u64_of(bytes: &[u8]) -> u64
    requires { length bytes.now ≡ 8 }
    ensures { result ≡ from_be_bytes w64 bytes.now }
{
    u64::from_be_bytes([
        bytes[0], bytes[1], bytes[2], bytes[3], bytes[4], bytes[5], bytes[6], bytes[7],
    ])
}
