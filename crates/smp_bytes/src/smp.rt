ghost use Rattle.std.specs.Prelude.{◌≡◌, ◌+◌, ◌<◌, ◌≤◌, ◌↔◌, true, None, IfOk, IsTrue, if◌then◌else◌};
ghost use Rattle.smp_bytes.specs.Field.{number_in, bytes_in};
ghost use Rattle.smp_bytes.specs.Packet.{base_version, class_version, method, transaction_id, attribute_id};
ghost use Rattle.smp_bytes.specs.Packet.{attribute_modifier, m_key, attribute_data, hop_pointer, hop_count};
ghost use Rattle.smp_bytes.specs.Packet.{dr_slid, dr_dlid, initial_path, return_path, max_hops, is_directed};
ghost use Rattle.smp_bytes.specs.Packet.{is_response, is_returning, status, fault_of, directed_fault_of};
ghost use Rattle.smp_bytes.specs.Judges.{Judges};
ghost use Rattle.smp_bytes.specs.declared.header.SmpClass.TheVariants.{LidRouted, DirectedRoute};

use crate::field;
use crate::header::{AttributeId, Method, SmpClass, Status};
use crate::lid::Lid;
use crate::port_num::PortNum;
use crate::smp_fault::SmpFault;
use crate::wire::{bits_at, u8_at, u16_at, u32_at, u64_at};
use std::marker::Model;

mod answers;
mod requests;
mod writers;

/// A subnet management packet: 256 bytes without any of the faults that `SmpFault` lists. Contracts see its bytes.
#[derive(Clone, Copy, Debug)]
pub struct Smp {
    pub(crate) bytes: [u8; 256],
}

impl Model for Smp {
    ghost use Rattle.std.specs.Prelude.{◌≡◌, ℕ, List, None};
    ghost use Rattle.smp_bytes.specs.Packet.{fault_of};

    ghost Value = { List ℕ };

    ghost view = { λ p. p.bytes };

    ghost invariant = { λ p. fault_of p.bytes ≡ None };

    ghost inverse = { λ bytes. record { bytes = bytes } };
}

/// The value of BaseVersion and of ClassVersion.
const VERSION: u8 = 1;

const LID_ROUTED: u8 = 0x01;

const DIRECTED_ROUTE: u8 = 0x81;

/// The permissive LID, which stands for whichever port receives the packet (addressing).
pub const PERMISSIVE_LID: u16 = 0xFFFF;

const MAX_HOPS: u8 = 63;

impl Smp {
    /// Parses 256 bytes as a packet, and keeps them as they are.
    ///
    /// # Errors
    ///
    /// Returns the first fault of `bytes`, in the order of `SmpFault`.
    pub fn parse(bytes: &[u8; 256]) -> Result<Smp, SmpFault>
        ensures judged { Judges result (fault_of bytes.now) }
        ensures kept { IfOk result (λ smp. smp ≡ bytes.now) }
    {
        match fault_of(bytes) {
            None => Ok(Smp { bytes: *bytes }),
            Some(fault) => Err(fault),
        }
    }

    /// Returns the packet's bytes.
    pub fn bytes(&self) -> &[u8; 256]
        ensures bytes { result.now ≡ self.now }
        ensures parses { fault_of self.now ≡ None }
    {
        &self.bytes
    }

    /// Returns BaseVersion, which is 1.
    pub fn base_version(&self) -> u8
        ensures { result ≡ number_in base_version self.now }
    {
        u8_at(&self.bytes, field::BASE_VERSION)
    }

    /// Returns the class of the packet, as MgmtClass says.
    pub fn class(&self) -> SmpClass
        ensures { result ≡ (if is_directed self.now then DirectedRoute else LidRouted) }
    {
        if u8_at(&self.bytes, field::MGMT_CLASS) == DIRECTED_ROUTE {
            SmpClass::DirectedRoute
        } else {
            SmpClass::LidRouted
        }
    }

    /// Returns ClassVersion, which is 1.
    pub fn class_version(&self) -> u8
        ensures { result ≡ number_in class_version self.now }
    {
        u8_at(&self.bytes, field::CLASS_VERSION)
    }

    /// Returns the method: the R bit and the seven bits below it.
    pub fn method(&self) -> Method
        ensures { result.0 ≡ number_in method self.now }
    {
        Method(u8_at(&self.bytes, field::METHOD))
    }

    /// Returns whether the R bit is set.
    pub fn is_response(&self) -> bool
        ensures { IsTrue result ↔ IsTrue (is_response self.now) }
    {
        bits_at(&self.bytes, field::METHOD, field::RESPONSE_BIT, 1) == 1
    }

    /// Returns whether the D bit is set. A directed packet with this bit set is on its way back. In a LID-routed packet
    /// this is the highest bit of the status.
    pub fn is_returning(&self) -> bool
        ensures { IsTrue result ↔ IsTrue (is_returning self.now) }
    {
        bits_at(&self.bytes, field::STATUS, field::DIRECTION_BIT, 1) == 1
    }

    /// Returns the status, without the D bit in a directed packet.
    pub fn status(&self) -> Status
        ensures { result.0 ≡ status self.now }
    {
        let word = u16_at(&self.bytes, field::STATUS);
        match self.class() {
            SmpClass::DirectedRoute => Status(word % 0x8000),
            SmpClass::LidRouted => Status(word),
        }
    }

    /// Returns HopPointer. In a directed packet it is at most HopCount + 1.
    pub fn hop_pointer(&self) -> u8
        ensures value { result ≡ number_in hop_pointer self.now }
        ensures most { is_directed self.now ≡ true → result ≤ number_in hop_count self.now + 1 }
    {
        u8_at(&self.bytes, field::HOP_POINTER)
    }

    /// Returns HopCount. In a directed packet it is at most 63.
    pub fn hop_count(&self) -> u8
        ensures value { result ≡ number_in hop_count self.now }
        ensures most { is_directed self.now ≡ true → result ≤ max_hops }
    {
        u8_at(&self.bytes, field::HOP_COUNT)
    }

    /// Returns TransactionID.
    pub fn transaction_id(&self) -> u64
        ensures { result ≡ number_in transaction_id self.now }
    {
        u64_at(&self.bytes, field::TRANSACTION_ID)
    }

    /// Returns AttributeID.
    pub fn attribute_id(&self) -> AttributeId
        ensures { result.0 ≡ number_in attribute_id self.now }
    {
        AttributeId(u16_at(&self.bytes, field::ATTRIBUTE_ID))
    }

    /// Returns AttributeModifier.
    pub fn attribute_modifier(&self) -> u32
        ensures { result ≡ number_in attribute_modifier self.now }
    {
        u32_at(&self.bytes, field::ATTRIBUTE_MODIFIER)
    }

    /// Returns M_Key.
    pub fn m_key(&self) -> u64
        ensures { result ≡ number_in m_key self.now }
    {
        u64_at(&self.bytes, field::M_KEY)
    }

    /// Returns DrSLID. In a directed packet it is the permissive LID.
    pub fn dr_slid(&self) -> Lid
        ensures { result ≡ number_in dr_slid self.now }
    {
        Lid::new(u16_at(&self.bytes, field::DR_SLID))
    }

    /// Returns DrDLID. In a directed packet it is the permissive LID.
    pub fn dr_dlid(&self) -> Lid
        ensures { result ≡ number_in dr_dlid self.now }
    {
        Lid::new(u16_at(&self.bytes, field::DR_DLID))
    }

    /// Returns entry `i` of InitialPath: the port by which a directed packet leaves at step `i`. Index 0 is not used.
    /// `i` must be less than 64.
    pub fn initial_path(&self, i: usize) -> PortNum
        requires { i < 64 }
        ensures { result ≡ number_in (initial_path i) self.now }
    {
        PortNum::new(u8_at(&self.bytes, field::INITIAL_PATH + i))
    }

    /// Returns entry `i` of ReturnPath: the port by which the answer to a directed packet leaves at step `i`. Index 0
    /// is not used. `i` must be less than 64.
    pub fn return_path(&self, i: usize) -> PortNum
        requires { i < 64 }
        ensures { result ≡ number_in (return_path i) self.now }
    {
        PortNum::new(u8_at(&self.bytes, field::RETURN_PATH + i))
    }

    /// Returns the 64 bytes of the attribute.
    pub fn attribute_data(&self) -> [u8; 64]
        ensures { result ≡ bytes_in attribute_data self.now }
    {
        let mut data = [0; 64];
        data.copy_from_slice(&self.bytes[field::DATA..field::INITIAL_PATH]);
        data
    }
}

/// Returns the first fault of `bytes`, or `None` if they form a packet.
fn fault_of(bytes: &[u8; 256]) -> Option<SmpFault>
    ensures { result ≡ fault_of bytes.now }
{
    let class = u8_at(bytes, field::MGMT_CLASS);
    if u8_at(bytes, field::BASE_VERSION) != VERSION {
        Some(SmpFault::BaseVersion)
    } else if class != LID_ROUTED && class != DIRECTED_ROUTE {
        Some(SmpFault::Class)
    } else if u8_at(bytes, field::CLASS_VERSION) != VERSION {
        Some(SmpFault::ClassVersion)
    } else if class == DIRECTED_ROUTE {
        directed_fault_of(bytes)
    } else {
        None
    }
}

/// Returns the first fault in the fields that only the directed class has, or `None` if these fields have no fault.
fn directed_fault_of(bytes: &[u8; 256]) -> Option<SmpFault>
    ensures { result ≡ directed_fault_of bytes.now }
{
    let hop_count = u8_at(bytes, field::HOP_COUNT);
    let dr_slid = u16_at(bytes, field::DR_SLID);
    let dr_dlid = u16_at(bytes, field::DR_DLID);
    if hop_count > MAX_HOPS {
        Some(SmpFault::HopCount)
    } else if u8_at(bytes, field::HOP_POINTER) > hop_count + 1 {
        Some(SmpFault::HopPointer)
    } else if dr_slid != PERMISSIVE_LID || dr_dlid != PERMISSIVE_LID {
        Some(SmpFault::DrLid)
    } else {
        None
    }
}
