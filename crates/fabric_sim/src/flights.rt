ghost use Rattle.std.specs.Prelude.{◌≡◌};
ghost use Rattle.fabric_sim.specs.Simulation.{CanWait};
ghost use Rattle.fabric_sim.specs.Flights.{Finds, IsFlightAt};
ghost use Rattle.fabric_sim.specs.Called.{ComesTo};
ghost use Rattle.fabric_sim.specs.Delivery.{after_enqueue, moved_to, without};
ghost use Rattle.fabric_sim.specs.Changes.{after_repeat, after_lose};

use crate::fabric::Fabric;
use crate::fabric_fault::FabricFault;
use crate::flight::{Flight, Whereabouts};
use crate::packet::Packet;

impl Fabric {
    /// Returns the index of the packet in flight with the number `serial`, if any. Takes constant time for the first
    /// packet, and a binary search for any other.
    pub(crate) fn find(&self, serial: u64) -> Option<usize>
        ensures { Finds self.now.flights serial result }
    {
        let first = self.flights.front()?;
        if first.serial == serial {
            return Some(0);
        }
        self.search(serial)
    }

    /// Returns the index of the packet in flight with the number `serial`, if any. Does a binary search.
    fn search(&self, serial: u64) -> Option<usize>
        ensures { Finds self.now.flights serial result }
    {
        self.flights
            .binary_search_by_key(&serial, |flight| flight.serial)
            .ok()
    }

    /// Adds `packet`, which waits as `whereabouts` says, to those in flight, and returns its serial number.
    pub(crate) fn enqueue(
        &mut self,
        whereabouts: Whereabouts,
        packet: Packet,
    ) -> Result<u64, FabricFault>
        requires { CanWait self.old whereabouts }
        ensures { ComesTo result self.old self.new (after_enqueue self.old whereabouts packet) }
    {
        let Some(serial) = self.next else {
            return Err(FabricFault::SerialsSpent);
        };
        let flight = Flight {
            serial,
            whereabouts,
            packet,
        };
        if self.flights.push_back(flight).is_err() {
            return Err(FabricFault::Memory);
        }
        self.next = serial.checked_add(1);
        Ok(serial)
    }

    /// Replaces the packet at index `i`, with the number `serial`, by `packet`, which waits as `whereabouts` says.
    pub(crate) fn move_to(
        &mut self,
        i: usize,
        serial: u64,
        whereabouts: Whereabouts,
        packet: Packet,
    )
        requires at { IsFlightAt self.old.flights i serial }
        requires whereabouts { CanWait self.old whereabouts }
        ensures { self.new ≡ moved_to self.old serial whereabouts packet }
    {
        self.flights[i] = Flight {
            serial,
            whereabouts,
            packet,
        };
    }

    /// Removes the packet at index `i` among the packets in flight.
    pub(crate) fn remove(&mut self, i: usize, serial: u64)
        requires { IsFlightAt self.old.flights i serial }
        ensures { self.new ≡ without self.old serial }
    {
        self.flights.remove(i);
    }

    /// Removes the packet in flight with the serial number `serial`, which is lost. Does not allocate.
    ///
    /// # Errors
    ///
    /// Returns `NoSuchPacket` if no packet in flight has the serial number `serial`.
    #[tactic(auto, unfolding(crate::specs::Changes::after_lose))]
    pub fn lose(&mut self, serial: u64) -> Result<(), FabricFault>
        ensures fabric { self.new ≡ (after_lose self.old serial).fabric }
        ensures result { result ≡ (after_lose self.old serial).result }
    {
        let Some(i) = self.find(serial) else {
            return Err(FabricFault::NoSuchPacket);
        };
        self.remove(i, serial);
        Ok(())
    }

    /// Copies the packet in flight with the serial number `serial`, and returns the copy's serial number. The copy
    /// waits where the packet waits.
    ///
    /// # Errors
    ///
    /// Returns `NoSuchPacket` if no packet in flight has the serial number `serial`. Otherwise returns `SerialsSpent`
    /// if no serial number is left, or `Memory` if memory runs out.
    #[tactic(auto, unfolding(crate::specs::Changes::after_repeat))]
    pub fn repeat(&mut self, serial: u64) -> Result<u64, FabricFault>
        ensures { ComesTo result self.old self.new (after_repeat self.old serial) }
    {
        let Some(i) = self.find(serial) else {
            return Err(FabricFault::NoSuchPacket);
        };
        let flight = self.flights[i];
        self.enqueue(flight.whereabouts, flight.packet)
    }
}
