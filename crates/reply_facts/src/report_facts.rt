//! The contents of a report: its first fault, or the facts of the node that answered.
ghost use Rattle.std.specs.Prelude.{◌≡◌, true, Some, IfOk, IsTrue};
ghost use Rattle.smp_bytes.specs.Judges.{Judges};
ghost use Rattle.smp_bytes.specs.Field.{bits_in};
ghost use Rattle.attr_codec.specs.NodeInfo.{FitsNodeInfo};
ghost use Rattle.attr_codec.specs.PortInfo.{port_state};
ghost use Rattle.reply_facts.specs.Report.{about_fault, answer_fault, attribute_fault, node_info_fault};
ghost use Rattle.reply_facts.specs.Report.{port_info_fault, sightings_by_node_info, sightings_by_packet};
ghost use Rattle.reply_facts.specs.Report.{sightings_by_port_info, sightings_by_switch_info};
ghost use Rattle.reply_facts.specs.Report.{are_ports_in_range, fits_node_info, sightings_of_kind, is_up_state};
ghost use Rattle.reply_facts.specs.Report.{reply_fault, report_fault, sightings_of};
ghost use Rattle.reply_facts.specs.Sighting.{is_generation};

use crate::key::Key;
use crate::report::{Context, Report};
use crate::report_fault::ReportFault;
use crate::sighting::{Sighting, is_cabled_port};
use crate::value::Value;
use arrayvec::ArrayVec;
use attr_codec::{Attribute, NodeInfo, PortInfo, PortState, SwitchInfo};
use smp_bytes::{AttributeId, Generation, Method, NodeType, PortNum, Smp, SmpClass, Status};

/// Returns the facts that `report` contains.
///
/// # Errors
///
/// Returns the report's first fault, in the order of `ReportFault`.
pub fn sightings(report: &Report) -> Result<ArrayVec<Sighting, 4>, ReportFault>
    ensures judged { Judges result (report_fault report.now) }
    ensures sightings { IfOk result (λ sightings. sightings.items ≡ sightings_of report.now) }
{
    let Some(generation) = Generation::new(report.generation) else {
        return Err(ReportFault::Generation);
    };
    match Smp::parse(&report.bytes) {
        Ok(smp) => sightings_in(generation, &report.context, &smp),
        Err(fault) => Err(ReportFault::Smp(fault)),
    }
}

/// Returns the facts that `smp`, the packet of a reply, contains.
///
/// # Errors
///
/// Returns the first fault, in the order of `ReportFault`.
pub fn sightings_in(
    generation: Generation,
    context: &Context,
    smp: &Smp,
) -> Result<ArrayVec<Sighting, 4>, ReportFault>
    requires { IsTrue (is_generation generation) }
    ensures judged { Judges result (reply_fault context.now smp.now) }
    ensures sightings { IfOk result
        (λ sightings. sightings.items ≡ sightings_by_packet generation context.now smp.now) }
{
    match answer_fault(smp) {
        Some(fault) => Err(fault),
        None => sightings_by_packet(generation, context, smp),
    }
}

/// Returns the first reason why `smp` is not a successful answer that came back along a directed route, or `None` if
/// `smp` is one.
pub fn answer_fault(smp: &Smp) -> Option<ReportFault>
    ensures { result ≡ answer_fault smp.now }
{
    if smp.class() != SmpClass::DirectedRoute {
        Some(ReportFault::Class)
    } else if smp.method() != Method::GET_RESP {
        Some(ReportFault::Method)
    } else if !smp.is_returning() || smp.hop_pointer() != 0 {
        Some(ReportFault::Direction)
    } else if smp.status() != Status::DONE {
        Some(ReportFault::Status)
    } else {
        None
    }
}

/// Returns the facts in `smp`, by its attribute, or the first fault. Does not judge whether `smp` is an answer.
fn sightings_by_packet(
    generation: Generation,
    context: &Context,
    smp: &Smp,
) -> Result<ArrayVec<Sighting, 4>, ReportFault>
    requires { IsTrue (is_generation generation) }
    ensures judged { Judges result (attribute_fault context.now smp.now) }
    ensures sightings { IfOk result
        (λ sightings. sightings.items ≡ sightings_by_packet generation context.now smp.now) }
{
    match smp.attribute_id() {
        AttributeId::NODE_INFO => sightings_by_node_info(generation, context, smp),
        AttributeId::PORT_INFO => sightings_by_port_info(generation, context, smp),
        AttributeId::SWITCH_INFO => sightings_by_switch_info(generation, context, smp),
        _ => Err(ReportFault::Attribute),
    }
}

/// Returns the facts of an answer with NodeInfo, or the first fault of the answer.
fn sightings_by_node_info(
    generation: Generation,
    context: &Context,
    smp: &Smp,
) -> Result<ArrayVec<Sighting, 4>, ReportFault>
    requires { IsTrue (is_generation generation) }
    ensures judged { Judges result (node_info_fault context.now smp.now) }
    ensures sightings { IfOk result
        (λ sightings. sightings.items ≡ sightings_by_node_info generation context.now smp.now) }
{
    if !fits_node_info(context, smp.hop_count()) {
        return Err(ReportFault::Context);
    }
    let info = NodeInfo::decode(&smp.attribute_data());
    match info.node_type.node_type() {
        None => Err(ReportFault::NodeType),
        Some(kind) if are_ports_in_range(context, kind, &info) => {
            Ok(sightings_of_kind(generation, context, &info, kind))
        }
        Some(_) => Err(ReportFault::Port),
    }
}

/// Returns the facts that an answer with NodeInfo contains about a node of type `kind` and, if the context is `Via`,
/// about both directions of the link by which the request came.
fn sightings_of_kind(
    generation: Generation,
    context: &Context,
    info: &NodeInfo,
    kind: NodeType,
) -> ArrayVec<Sighting, 4>
    requires generation { IsTrue (is_generation generation) }
    requires numbers { FitsNodeInfo info.now }
    requires ports { are_ports_in_range context.now kind info.now ≡ true }
    ensures { result.items ≡ sightings_of_kind generation context.now info.now (Some kind) }
{
    let (node, local_port) = (info.node_guid, info.local_port_num);
    let guid_port = match kind {
        NodeType::Switch => PortNum::MANAGEMENT,
        NodeType::ChannelAdapter | NodeType::Router => local_port,
    };
    let ports = Value::Kind(kind, info.num_ports);
    let guid = Value::Guid(info.port_guid);
    let mut sightings = ArrayVec::new();
    sightings.push(Sighting::known(generation, Key::Node(node), ports));
    sightings.push(Sighting::known(generation, Key::PortGuid(node, guid_port), guid));
    if let Some((peer, port)) = context.via() {
        let there = Value::Peer(peer, port);
        let here = Value::Peer(node, local_port);
        sightings.push(Sighting::known(generation, Key::Link(node, local_port), there));
        sightings.push(Sighting::known(generation, Key::Link(peer, port), here));
    }
    sightings
}

/// Returns whether an answer with NodeInfo to a request of `hops` hops can have this `context`.
fn fits_node_info(context: &Context, hops: u8) -> bool
    ensures { result ≡ fits_node_info context.now hops }
{
    match context {
        Context::Start => hops == 0,
        Context::Via(..) => hops > 0,
        Context::About(_) => false,
    }
}

/// Returns whether the ports of an answer with NodeInfo are in range.
fn are_ports_in_range(context: &Context, kind: NodeType, info: &NodeInfo) -> bool
    ensures { result ≡ are_ports_in_range context.now kind info.now }
{
    let asked_by = info.local_port_num.number();
    let may_be_asked = match context {
        Context::Start => kind.is_switch() || asked_by > 0,
        Context::Via(_, via) => asked_by > 0 && is_cabled_port(via.number()),
        Context::About(_) => asked_by > 0,
    };
    is_cabled_port(info.num_ports) && asked_by <= info.num_ports && may_be_asked
}

/// Returns the facts of an answer with PortInfo, whether the port is up and the LID that it claims, or its first fault.
fn sightings_by_port_info(
    generation: Generation,
    context: &Context,
    smp: &Smp,
) -> Result<ArrayVec<Sighting, 4>, ReportFault>
    requires { IsTrue (is_generation generation) }
    ensures judged { Judges result (port_info_fault context.now smp.now) }
    ensures sightings { IfOk result
        (λ sightings. sightings.items ≡ sightings_by_port_info generation context.now smp.now) }
{
    let Some(node) = context.about() else {
        return Err(ReportFault::Context);
    };
    let modifier = smp.attribute_modifier();
    if modifier > 254 {
        return Err(ReportFault::Modifier);
    }
    let port = PortNum::new(modifier as u8);
    let info = PortInfo::decode(&smp.attribute_data());
    let up = Value::Up(is_up(&info));
    let lid = Value::Lid(info.base_lid());
    let mut sightings = ArrayVec::new();
    sightings.push(Sighting::known(generation, Key::Port(node, port), up));
    sightings.push(Sighting::known(generation, Key::Claim(node, port), lid));
    Ok(sightings)
}

/// Returns whether the port is up: its state is Initialize, Armed or Active.
pub fn is_up(info: &PortInfo) -> bool
    ensures { result ≡ is_up_state (bits_in port_state info.now) }
{
    match info.port_state() {
        Some(PortState::Initialize | PortState::Armed | PortState::Active) => true,
        Some(PortState::NoChange | PortState::Down) | None => false,
    }
}

/// Returns the fact of an answer with SwitchInfo, how many LIDs the switch's table has room for, or its fault.
fn sightings_by_switch_info(
    generation: Generation,
    context: &Context,
    smp: &Smp,
) -> Result<ArrayVec<Sighting, 4>, ReportFault>
    requires { IsTrue (is_generation generation) }
    ensures judged { Judges result (about_fault context.now) }
    ensures sightings { IfOk result
        (λ sightings. sightings.items ≡ sightings_by_switch_info generation context.now smp.now) }
{
    let Some(node) = context.about() else {
        return Err(ReportFault::Context);
    };
    let cap = SwitchInfo::decode(&smp.attribute_data()).linear_fdb_cap();
    let mut sightings = ArrayVec::new();
    sightings.push(Sighting::known(generation, Key::Cap(node), Value::Count(cap)));
    Ok(sightings)
}
