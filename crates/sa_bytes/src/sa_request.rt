ghost use Rattle.std.specs.Prelude.{◌≡◌, ◌≤◌, ◌<◌, ◌^◌, length, true, None, Some, if◌then◌else◌};
ghost use Rattle.smp_bytes.specs.Field.{bytes_in, number_in};
ghost use Rattle.smp_bytes.specs.Packet.{method, transaction_id, attribute_id, attribute_modifier};
ghost use Rattle.sa_bytes.specs.Answer.{answering, kind_of, sa_answer, segment_of};
ghost use Rattle.sa_bytes.specs.SaPacket.{attribute_data, component_mask, has_data, is_sa_request, lid_data};
ghost use Rattle.sa_bytes.specs.SaPacket.{path_data, port_data};

use crate::field;
use crate::numbers::{SaAttributeId, SaMethod, SaStatus};
use smp_bytes::wire::{
    bits_at, put_bytes, put_u8, put_u16, put_u32, put_u64, u8_at, u16_at, u32_at, u64_at,
};
use smp_bytes::{Lid, PortNum};
use std::marker::Model;

/// A request of subnet administration: 256 bytes of its class and version whose R bit is not set, and which do not
/// acknowledge, stop or abort what RMPP carries. Contracts see the bytes.
#[derive(Clone, Copy, Debug)]
pub struct SaRequest {
    bytes: [u8; 256],
}

impl Model for SaRequest {
    ghost use Rattle.std.specs.Prelude.{◌≡◌, ℕ, List, true};
    ghost use Rattle.sa_bytes.specs.SaPacket.{is_sa_request};

    ghost Value = { List ℕ };

    ghost view = { λ p. p.bytes };

    ghost invariant = { λ p. is_sa_request p.bytes ≡ true };

    ghost inverse = { λ bytes. record { bytes = bytes } };
}

/// The value of BaseVersion.
const BASE_VERSION: u8 = 1;

/// The class of subnet administration.
const SA_CLASS: u8 = 0x03;

/// The value of ClassVersion.
const SA_VERSION: u8 = 2;

/// The RMPPType of a packet with data.
const RMPP_DATA: u8 = 1;

/// The first bytes of RMPP in the only packet of a table: version 1, data, no response time, active, first and last.
const ONLY_SEGMENT: u32 = 0x0101_FF00;

impl SaRequest {
    /// Parses 256 bytes as a request, and keeps them as they are. Returns `None` if they are none: another class or
    /// version, or an answer.
    pub fn parse(bytes: &[u8; 256]) -> Option<SaRequest>
        ensures { result ≡ (if is_sa_request bytes.now then Some bytes.now else None) }
    {
        if is_sa_request(bytes) {
            Some(SaRequest { bytes: *bytes })
        } else {
            None
        }
    }

    /// Returns the packet's bytes.
    pub fn bytes(&self) -> &[u8; 256]
        ensures { result.now ≡ self.now }
    {
        &self.bytes
    }

    /// Returns the method.
    pub fn method(&self) -> SaMethod
        ensures { result.0 ≡ number_in method self.now }
    {
        SaMethod(u8_at(&self.bytes, field::METHOD))
    }

    /// Returns TransactionID.
    pub fn transaction_id(&self) -> u64
        ensures { result ≡ number_in transaction_id self.now }
    {
        u64_at(&self.bytes, field::TRANSACTION_ID)
    }

    /// Returns AttributeID.
    pub fn attribute_id(&self) -> SaAttributeId
        ensures { result.0 ≡ number_in attribute_id self.now }
    {
        SaAttributeId(u16_at(&self.bytes, field::ATTRIBUTE_ID))
    }

    /// Returns AttributeModifier.
    pub fn attribute_modifier(&self) -> u32
        ensures { result ≡ number_in attribute_modifier self.now }
    {
        u32_at(&self.bytes, field::ATTRIBUTE_MODIFIER)
    }

    /// Returns ComponentMask: a bit for each component of the record that the request gives.
    pub fn component_mask(&self) -> u64
        ensures { result ≡ number_in component_mask self.now }
    {
        u64_at(&self.bytes, field::COMPONENT_MASK)
    }

    /// Returns the first 64 bytes of the record, which are the whole record of a request for paths.
    pub fn path_data(&self) -> [u8; 64]
        ensures { result ≡ bytes_in path_data self.now }
    {
        let mut data = [0; 64];
        data.copy_from_slice(&self.bytes[field::RECORD..field::RECORD + 64]);
        data
    }

    /// Returns the LID of the record of a request for NodeRecord or PortInfoRecord.
    pub fn lid(&self) -> Lid
        ensures { result ≡ number_in lid_data self.now }
    {
        Lid::new(u16_at(&self.bytes, field::RECORD))
    }

    /// Returns the number of the port of the record of a request for PortInfoRecord.
    pub fn port(&self) -> PortNum
        ensures { result ≡ number_in port_data self.now }
    {
        PortNum::new(u8_at(&self.bytes, field::PORT))
    }

    /// Returns NodeInfo in the record of a request for NodeRecord, or PortInfo in that of one for PortInfoRecord.
    pub fn attribute_data(&self) -> [u8; 64]
        ensures { result ≡ bytes_in attribute_data self.now }
    {
        let mut data = [0; 64];
        data.copy_from_slice(&self.bytes[field::ATTRIBUTE..field::ATTRIBUTE + 64]);
        data
    }

    /// Returns the answer with the status `status` and with `body`, which may be empty. `payload` is the number of
    /// bytes from SM_Key to the end of the records if the answer is a table, and otherwise 0; `offset` is
    /// AttributeOffset, in units of 8 bytes. Everything that is not given is the request's or 0. `body` must have at
    /// most 200 bytes.
    pub fn answer(&self, status: SaStatus, payload: u32, offset: u16, body: &[u8]) -> [u8; 256]
        requires { length body.now ≤ 200 }
        ensures { result ≡ sa_answer self.now status.0 payload offset body.now }
    {
        let mut bytes = [0; 256];
        put_u8(&mut bytes, field::BASE_VERSION, BASE_VERSION);
        put_u8(&mut bytes, field::MGMT_CLASS, SA_CLASS);
        put_u8(&mut bytes, field::CLASS_VERSION, SA_VERSION);
        put_u8(&mut bytes, field::METHOD, self.answering());
        put_u16(&mut bytes, field::STATUS, status.0);
        put_u64(&mut bytes, field::TRANSACTION_ID, self.transaction_id());
        put_u16(&mut bytes, field::ATTRIBUTE_ID, self.attribute_id().0);
        put_u32(
            &mut bytes,
            field::ATTRIBUTE_MODIFIER,
            self.attribute_modifier(),
        );
        put_u32(&mut bytes, field::RMPP_KIND, kind_of(payload));
        put_u32(&mut bytes, field::SEGMENT_NUMBER, segment_of(payload));
        put_u32(&mut bytes, field::PAYLOAD_LENGTH, payload);
        put_u16(&mut bytes, field::ATTRIBUTE_OFFSET, offset);
        put_u64(&mut bytes, field::COMPONENT_MASK, self.component_mask());
        put_bytes(&mut bytes, field::RECORD, body);
        bytes
    }

    /// Returns the method of the answer.
    fn answering(&self) -> u8
        ensures { result ≡ answering (number_in method self.now) }
    {
        let method = self.method();
        if method == SaMethod::SET {
            SaMethod::GET_RESP.0
        } else {
            0x80 + method.0 % 0x80
        }
    }
}

/// Returns whether `bytes` are a request of subnet administration.
fn is_sa_request(bytes: &[u8; 256]) -> bool
    ensures { result ≡ is_sa_request bytes.now }
{
    u8_at(bytes, field::BASE_VERSION) == BASE_VERSION
        && u8_at(bytes, field::MGMT_CLASS) == SA_CLASS
        && u8_at(bytes, field::CLASS_VERSION) == SA_VERSION
        && bits_at(bytes, field::METHOD, field::RESPONSE_BIT, 1) != 1
        && has_data(bytes)
}

/// Returns whether `bytes` are no packet of RMPP, or one with data.
fn has_data(bytes: &[u8; 256]) -> bool
    ensures { result ≡ has_data bytes.now }
{
    bits_at(bytes, field::RMPP_FLAGS, 0, 1) == 0 || u8_at(bytes, field::RMPP_TYPE) == RMPP_DATA
}

/// Returns what a packet with a payload is in RMPP, or 0 if it has none.
fn kind_of(payload: u32) -> u32
    ensures { result ≡ kind_of payload }
{
    if payload == 0 { 0 } else { ONLY_SEGMENT }
}

/// Returns the number of the only segment of a payload, or 0 if there is none.
fn segment_of(payload: u32) -> u32
    ensures { result ≡ segment_of payload }
{
    if payload == 0 { 0 } else { 1 }
}
