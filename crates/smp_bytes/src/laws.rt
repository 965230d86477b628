//! The laws of packets: what a write into a field or into bits does, and what built packets contain.
ghost use Rattle.std.specs.Prelude.{◌≡◌};
ghost use Rattle.smp_bytes.specs.Header.{get, set, get_resp, done, method_not_supported};
ghost use Rattle.smp_bytes.specs.Header.{method_and_attribute_not_supported, invalid_field, node_description};
ghost use Rattle.smp_bytes.specs.Header.{node_info, switch_info, port_info, linear_forwarding_table, sm_info};
ghost use Rattle.smp_bytes.specs.Header.{multicast_forwarding_table};
ghost use Rattle.smp_bytes.specs.Laws.{NumberIsRead, FieldApartStays, BytesOutsideStay, WriteIsUnique};
ghost use Rattle.smp_bytes.specs.Laws.{LastWriteStands, BitsAreRead, BitsApartStay, OtherBytesStay};
ghost use Rattle.smp_bytes.specs.ReadBack.{DirectedReadsBack, LidRoutedReadsBack, AnswerReadsBack, StatusReadsBack};

use crate::header::{AttributeId, Method, Status};

/// If a field lies within the bytes and a number fits in it, the number that is written into the field is read from it.
pub fn written_number_is_read()
    ensures { NumberIsRead }
{}

/// A write into a field within the bytes keeps the number of each field that shares no byte with it.
pub fn field_apart_stays()
    ensures { FieldApartStays }
{}

/// A write into a field within the bytes keeps the number of bytes and every byte outside the field.
pub fn bytes_outside_field_stay()
    ensures { BytesOutsideStay }
{}

/// If a field lies within the bytes, only writing a number into it gives that number there and keeps all other bytes.
pub fn write_is_unique()
    ensures { WriteIsUnique }
{}

/// Of two writes into a field within the bytes, only the later has an effect.
pub fn last_write_stands()
    ensures { LastWriteStands }
{}

/// If a number fits in some bits of a byte, the number that is written into these bits is read from them.
pub fn written_bits_are_read()
    ensures { BitsAreRead }
{}

/// If a number that fits is written into some bits of a byte, all bits apart from them keep their number.
pub fn bits_apart_stay()
    ensures { BitsApartStay }
{}

/// Writing a number that fits into some bits of a byte keeps every other byte.
pub fn other_bytes_stay()
    ensures { OtherBytesStay }
{}

/// A directed request contains the given method, attribute, modifier, TransactionID, path and data, if each of them
/// fits. HopPointer is 0, and HopCount is the length of the path. DrSLID and DrDLID are the permissive LID. Everything
/// else is 0, except for the versions and the class.
pub fn directed_request_reads_back()
    ensures { DirectedReadsBack }
{}

/// A LID-routed request contains the given method, attribute, modifier, TransactionID and data, if each of them fits.
/// Everything else is 0, except for the versions and the class.
pub fn lid_routed_request_reads_back()
    ensures { LidRoutedReadsBack }
{}

/// An answer to a packet contains the given status and data, if each of them fits. The method is GetResp. If the
/// request is directed, the D bit of the answer is set. All other bytes are those of the request.
pub fn answer_reads_back()
    ensures { AnswerReadsBack }
{}

/// A status that is written into a packet is read from it, if the status fits. The class of the packet stays, and so
/// does the D bit of a directed packet.
pub fn status_reads_back()
    ensures { StatusReadsBack }
{}

/// The constants of `Method` have the standard's numbers.
pub fn method_numbers()
    ensures get { Method.GET.0 ≡ get }
    ensures set { Method.SET.0 ≡ set }
    ensures get_resp { Method.GET_RESP.0 ≡ get_resp }
{}

/// The constants of `Status` have the standard's numbers.
pub fn status_numbers()
    ensures done { Status.DONE.0 ≡ done }
    ensures method { Status.METHOD_NOT_SUPPORTED.0 ≡ method_not_supported }
    ensures pair { Status.METHOD_AND_ATTRIBUTE_NOT_SUPPORTED.0
        ≡ method_and_attribute_not_supported }
    ensures field { Status.INVALID_FIELD.0 ≡ invalid_field }
{}

/// The constants of `AttributeId` have the standard's numbers.
pub fn attribute_numbers()
    ensures node_description { AttributeId.NODE_DESCRIPTION.0 ≡ node_description }
    ensures node_info { AttributeId.NODE_INFO.0 ≡ node_info }
    ensures switch_info { AttributeId.SWITCH_INFO.0 ≡ switch_info }
    ensures port_info { AttributeId.PORT_INFO.0 ≡ port_info }
    ensures linear_forwarding_table { AttributeId.LINEAR_FORWARDING_TABLE.0
        ≡ linear_forwarding_table }
    ensures multicast_forwarding_table { AttributeId.MULTICAST_FORWARDING_TABLE.0
        ≡ multicast_forwarding_table }
    ensures sm_info { AttributeId.SM_INFO.0 ≡ sm_info }
{}
