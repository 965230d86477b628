ghost use Rattle.std.specs.Prelude.{◌≡◌, ◌≤◌, ◌<◌, ◌^◌, true, length};
ghost use Rattle.smp_bytes.specs.Requests.{directed, lid_routed, answer_packet, request};
ghost use Rattle.smp_bytes.specs.Packet.{is_directed, max_hops};

use crate::field;
use crate::header::{AttributeId, Method, SmpClass, Status};
use crate::path::Path;
use crate::smp::{DIRECTED_ROUTE, LID_ROUTED, PERMISSIVE_LID, Smp, VERSION};
use crate::wire::{put_bytes, put_u8, put_u16, put_u32, put_u64};

impl Smp {
    /// Creates a directed request over the ports of `path`. Every field that is not given is 0, except the versions,
    /// the class, HopCount and the permissive LIDs.
    pub fn directed(
        method: Method,
        attribute: AttributeId,
        modifier: u32,
        transaction_id: u64,
        path: &Path<63>,
        payload: &[u8; 64],
    ) -> Smp
        ensures bytes { result
            ≡ directed method.0 attribute.0 modifier transaction_id path.now payload.now }
        ensures hops { length path.now ≤ max_hops }
    {
        let mut bytes = request(DIRECTED_ROUTE, method, attribute, modifier, transaction_id);
        put_u8(&mut bytes, field::HOP_COUNT, path.len() as u8);
        put_u16(&mut bytes, field::DR_SLID, PERMISSIVE_LID);
        put_u16(&mut bytes, field::DR_DLID, PERMISSIVE_LID);
        put_bytes(&mut bytes, field::DATA, payload);
        put_bytes(&mut bytes, field::INITIAL_PATH + 1, path.as_bytes());
        Smp { bytes }
    }

    /// Creates a LID-routed request. Every field that is not given is 0, except the versions and the class.
    pub fn lid_routed(
        method: Method,
        attribute: AttributeId,
        modifier: u32,
        transaction_id: u64,
        payload: &[u8; 64],
    ) -> Smp
        ensures { result ≡ lid_routed method.0 attribute.0 modifier transaction_id payload.now }
    {
        let mut bytes = request(LID_ROUTED, method, attribute, modifier, transaction_id);
        put_bytes(&mut bytes, field::DATA, payload);
        Smp { bytes }
    }

    /// Creates the answer to this request, with the method GetResp, the status `status`, and `payload` as the
    /// attribute. If the request is directed, the D bit is set, and `status` must be less than 2^15. Everything else is
    /// as in the request.
    pub fn answer(&self, status: Status, payload: &[u8; 64]) -> Smp
        requires { is_directed self.now ≡ true → status.0 < 2 ^ 15 }
        ensures { result ≡ answer_packet self.now status.0 payload.now }
    {
        let status = match self.class() {
            SmpClass::DirectedRoute => 0x8000 + status.0,
            SmpClass::LidRouted => status.0,
        };
        let mut bytes = self.bytes;
        put_u8(&mut bytes, field::METHOD, Method::GET_RESP.0);
        put_u16(&mut bytes, field::STATUS, status);
        put_bytes(&mut bytes, field::DATA, payload);
        Smp { bytes }
    }
}

/// Returns the bytes of a request of class `class`: the fields that both classes have, and 0 elsewhere.
fn request(
    class: u8,
    method: Method,
    attribute: AttributeId,
    modifier: u32,
    transaction_id: u64,
) -> [u8; 256]
    ensures { result ≡ request class method.0 attribute.0 modifier transaction_id }
{
    let mut bytes = [0; 256];
    put_u8(&mut bytes, field::BASE_VERSION, VERSION);
    put_u8(&mut bytes, field::MGMT_CLASS, class);
    put_u8(&mut bytes, field::CLASS_VERSION, VERSION);
    put_u8(&mut bytes, field::METHOD, method.0);
    put_u64(&mut bytes, field::TRANSACTION_ID, transaction_id);
    put_u16(&mut bytes, field::ATTRIBUTE_ID, attribute.0);
    put_u32(&mut bytes, field::ATTRIBUTE_MODIFIER, modifier);
    bytes
}
