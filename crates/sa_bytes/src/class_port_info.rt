//! What subnet administration tells of itself (management datagrams, ClassPortInfo).
ghost use Rattle.std.specs.Prelude.{◌≡◌};
ghost use Rattle.sa_bytes.specs.ClassPortInfo.{class_port_info_bytes};

use smp_bytes::wire::{put_u8, put_u32};

/// The number of bytes of ClassPortInfo.
pub const CLASS_PORT_INFO_BYTES: usize = 72;

/// The n for which 4.096 us * 2^n is about 268 ms, the longest time within which an answer comes.
const RESPONSE_TIME: u32 = 16;

/// The queue pair of general services.
const GENERAL_SERVICES: u32 = 1;

/// The Q_Key of this queue pair.
const GENERAL_Q_KEY: u32 = 0x8001_0000;

/// Returns ClassPortInfo: versions, RespTimeValue, RedirectQP and the Q_Keys. Everything else is 0, since no option of
/// the class is supported and requests are not redirected.
pub fn sa_class_port_info() -> [u8; CLASS_PORT_INFO_BYTES]
    ensures { result ≡ class_port_info_bytes }
{
    let mut bytes = [0; CLASS_PORT_INFO_BYTES];
    put_u8(&mut bytes, 0, 1);
    put_u8(&mut bytes, 1, 2);
    put_u32(&mut bytes, 4, RESPONSE_TIME);
    put_u32(&mut bytes, 32, GENERAL_SERVICES);
    put_u32(&mut bytes, 36, GENERAL_Q_KEY);
    put_u32(&mut bytes, 68, GENERAL_Q_KEY);
    bytes
}
