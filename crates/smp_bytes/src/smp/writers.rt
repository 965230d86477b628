//! Writers of single fields. Each writes the bits of its field and leaves every other bit unchanged.
ghost use Rattle.std.specs.Prelude.{◌≡◌, ◌+◌, ◌≤◌, ◌<◌, ◌^◌, true};
ghost use Rattle.smp_bytes.specs.Field.{number_in, with_bits, with_number};
ghost use Rattle.smp_bytes.specs.Requests.{flag, word_with_status};
ghost use Rattle.smp_bytes.specs.Packet.{method, status_word, direction_bit, transaction_id, hop_pointer};
ghost use Rattle.smp_bytes.specs.Packet.{hop_count, initial_path, return_path, is_directed};

use crate::field;
use crate::header::{Method, SmpClass, Status};
use crate::port_num::PortNum;
use crate::smp::Smp;
use crate::wire::{put_bits, put_u8, put_u16, put_u64, u16_at};

impl Smp {
    /// Writes `to` as the R bit and the method.
    pub fn set_method(&mut self, to: Method)
        ensures { self.new ≡ with_number method to.0 self.old }
    {
        put_u8(&mut self.bytes, field::METHOD, to.0);
    }

    /// Writes the status. If the packet is directed, its D bit stays, and `status` must be less than 2^15.
    pub fn set_status(&mut self, status: Status)
        requires { is_directed self.old ≡ true → status.0 < 2 ^ 15 }
        ensures { self.new ≡ with_number status_word (word_with_status self.old status.0) self.old }
    {
        let word = match self.class() {
            SmpClass::DirectedRoute => {
                u16_at(&self.bytes, field::STATUS) / 0x8000 * 0x8000 + status.0
            }
            SmpClass::LidRouted => status.0,
        };
        put_u16(&mut self.bytes, field::STATUS, word);
    }

    /// Writes the D bit: whether a directed packet is on its way back. In a LID-routed packet this bit is the highest
    /// of the status.
    pub fn set_returning(&mut self, returning: bool)
        ensures { self.new ≡ with_bits direction_bit (flag returning) self.old }
    {
        put_bits(
            &mut self.bytes,
            field::STATUS,
            field::DIRECTION_BIT,
            1,
            u8::from(returning),
        );
    }

    /// Writes TransactionID.
    pub fn set_transaction_id(&mut self, to: u64)
        ensures { self.new ≡ with_number transaction_id to self.old }
    {
        put_u64(&mut self.bytes, field::TRANSACTION_ID, to);
    }

    /// Writes HopPointer. In a directed packet `to` must be at most HopCount + 1.
    pub fn set_hop_pointer(&mut self, to: u8)
        requires { is_directed self.old ≡ true → to ≤ number_in hop_count self.old + 1 }
        ensures { self.new ≡ with_number hop_pointer to self.old }
    {
        put_u8(&mut self.bytes, field::HOP_POINTER, to);
    }

    /// Writes the port at index `i` of InitialPath. `i` must be less than 64.
    pub fn set_initial_path(&mut self, i: usize, port: PortNum)
        requires { i < 64 }
        ensures { self.new ≡ with_number (initial_path i) port self.old }
    {
        put_u8(&mut self.bytes, field::INITIAL_PATH + i, port.number());
    }

    /// Writes the port at index `i` of ReturnPath. `i` must be less than 64.
    pub fn set_return_path(&mut self, i: usize, port: PortNum)
        requires { i < 64 }
        ensures { self.new ≡ with_number (return_path i) port self.old }
    {
        put_u8(&mut self.bytes, field::RETURN_PATH + i, port.number());
    }
}
