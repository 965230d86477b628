ghost use Rattle.std.specs.Prelude.{◌≡◌, ◌%◌, ◌^◌};
ghost use Rattle.sweep.specs.Sweep.{transaction_of};
ghost use Rattle.light_sweep.specs.LightSweep.{answers_light, is_as_read, is_same, is_same_info, light_packet};
ghost use Rattle.light_sweep.specs.LightSweep.{light_request, says_same};

use attr_codec::{Attribute, SwitchInfo};
use smp_bytes::{AttributeId, Generation, Method, Smp, Status};
use sweep::{Sweep, Vertex};

/// Returns the request of a light sweep to the vertex at index `i` of those that `sweep` reached: a Get of SwitchInfo,
/// along the path that reached the vertex (subnet management, SwitchInfo). Its TransactionID has the generation of
/// `sweep` in its high half and `i` in its low half. Returns `None` if the vertex is no switch, or if there is none.
pub fn light_request(sweep: &Sweep, i: usize) -> Option<Smp>
    ensures { result ≡ light_request sweep.now i }
{
    let vertex = sweep.reached().get(i)?;
    if vertex.kind.is_switch() {
        Some(light_packet(sweep, i, vertex))
    } else {
        None
    }
}

/// Returns whether the bytes `packet` answer a request of a light sweep, and say that its switch is as `sweep` read it:
/// SwitchInfo is the same, and PortStateChange is 0.
pub fn is_same(sweep: &Sweep, packet: &[u8; 256]) -> bool
    ensures { result ≡ is_same sweep.now packet.now }
{
    match Smp::parse(packet) {
        Ok(packet) => says_same(sweep, &packet),
        Err(_) => false,
    }
}

/// Returns the request to `vertex`, which is at index `i` of those that `sweep` reached.
fn light_packet(sweep: &Sweep, i: usize, vertex: &Vertex) -> Smp
    ensures { result ≡ light_packet sweep.now i vertex.now }
{
    Smp::directed(
        Method::GET,
        AttributeId::SWITCH_INFO,
        0,
        transaction_of(sweep.generation(), i),
        &vertex.path,
        &[0; 64],
    )
}

/// Returns the TransactionID that has `generation` in its high half and the low half of `i` in its low half.
fn transaction_of(generation: Generation, i: usize) -> u64
    ensures { result ≡ transaction_of generation (i % 2 ^ 32) }
{
    u64::from(generation.number()) * 0x1_0000_0000 + i as u64 % 0x1_0000_0000
}

/// Returns whether `packet` says that its switch is as `sweep` read it.
fn says_same(sweep: &Sweep, packet: &Smp) -> bool
    ensures { result ≡ says_same sweep.now packet.now }
{
    if !answers_light(sweep, packet) {
        return false;
    }
    match sweep
        .reached()
        .get((packet.transaction_id() % 0x1_0000_0000) as usize)
    {
        Some(vertex) => is_as_read(sweep, packet, vertex),
        None => false,
    }
}

/// Returns whether `packet` is an answer without a fault to a Get of SwitchInfo of the generation of `sweep`.
fn answers_light(sweep: &Sweep, packet: &Smp) -> bool
    ensures { result ≡ answers_light sweep.now packet.now }
{
    packet.is_response()
        && packet.attribute_id() == AttributeId::SWITCH_INFO
        && packet.status() == Status::DONE
        && packet.transaction_id() / 0x1_0000_0000 == u64::from(sweep.generation().number())
}

/// Returns whether SwitchInfo in `packet` is the one that `sweep` read of `vertex`, and no port has changed its state.
fn is_as_read(sweep: &Sweep, packet: &Smp, vertex: &Vertex) -> bool
    ensures { result ≡ is_as_read sweep.now packet.now vertex.now }
{
    match sweep.switch_image(vertex.guid) {
        Some(image) => is_same_info(packet, &image),
        None => false,
    }
}

/// Returns whether SwitchInfo in `packet` is `image`, in which no port has changed its state.
fn is_same_info(packet: &Smp, image: &SwitchInfo) -> bool
    ensures { result ≡ is_same_info packet.now image.now }
{
    !image.port_state_change() && packet.attribute_data() == image.encode()
}
