ghost use Rattle.std.specs.Prelude.{◌≡◌};
ghost use Rattle.fabric_sim.specs.Changes.{addressed, after_inject};
ghost use Rattle.fabric_sim.specs.Called.{ComesTo};

use crate::fabric::Fabric;
use crate::fabric_fault::FabricFault;
use crate::flight::Whereabouts;
use crate::packet::Packet;
use fabric_model::NodePort;

/// The offset of MgmtClass in a packet.
const MGMT_CLASS: usize = 1;

/// The MgmtClass of a packet that switches forward by LIDs.
const LID_ROUTED: u8 = 0x01;

impl Fabric {
    /// Sends `packet` from the seat `from`, and returns the packet's serial number. If switches forward the packet by
    /// LIDs, its SLID becomes the base LID of `from`, or 0 if `from` has none.
    ///
    /// # Errors
    ///
    /// Returns `NoSuchPort` if no manager sits at `from`. Otherwise returns `SerialsSpent` if no serial number is
    /// left, or `Memory` if memory runs out.
    #[tactic(auto, unfolding(crate::specs::Changes::after_inject))]
    pub fn inject(&mut self, from: NodePort, packet: Packet) -> Result<u64, FabricFault>
        ensures { ComesTo result self.old self.new (after_inject self.old from packet) }
    {
        if !self.is_seat(&from) {
            return Err(FabricFault::NoSuchPort);
        }
        let packet = self.addressed(&from, packet);
        self.enqueue(Whereabouts::Seat(from), packet)
    }

    /// Returns `packet`, with the base LID of the port `from` as its SLID if switches forward the packet by LIDs.
    fn addressed(&self, from: &NodePort, packet: Packet) -> Packet
        ensures { result ≡ addressed self.now from.now packet }
    {
        if packet.bytes[MGMT_CLASS] == LID_ROUTED {
            Packet {
                slid: self.base_lid(from),
                ..packet
            }
        } else {
            packet
        }
    }
}
