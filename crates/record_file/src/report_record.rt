ghost use Rattle.std.specs.Prelude.{◌≡◌, length};
ghost use Rattle.record_file.specs.ReportRecord.{context_of as context_with, report_of as report_in};

use crate::numbers::{u32_of, u64_of};
use fact_store::{Context, Report};
use smp_bytes::{Guid, PortNum};

/// The number of bytes of a record. Its parts are the generation, the context, a port, two zero bytes, a GUID and the
/// 256 bytes of the reply.
pub(crate) const RECORD_LEN: usize = 272;

/// Returns the report that the record `bytes` spells, or `None` if `bytes` do not spell a report.
#[tactic(auto, unfolding(crate::specs::ReportRecord::report_of))]
pub(crate) fn report_of(bytes: &[u8]) -> Option<Report>
    requires { length bytes.now ≡ 272 }
    ensures { result ≡ report_in bytes.now }
{
    if bytes[6] != 0 || bytes[7] != 0 {
        return None;
    }
    let context = context_of(bytes[4], bytes[5], u64_of(&bytes[8..16]))?;
    let mut reply = [0; 256];
    reply.copy_from_slice(&bytes[16..]);
    Some(Report {
        generation: u32_of(&bytes[..4]),
        context,
        bytes: reply,
    })
}

fn context_of(byte: u8, port: u8, guid: u64) -> Option<Context>
    ensures { result ≡ context_with byte port guid }
{
    match byte {
        0 if port == 0 && guid == 0 => Some(Context::Start),
        1 => Some(Context::Via(Guid::new(guid), PortNum::new(port))),
        2 if port == 0 => Some(Context::About(Guid::new(guid))),
        _ => None,
    }
}
