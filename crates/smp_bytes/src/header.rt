/// How a packet is routed: by LID through the switches' tables, or along the path of ports that it carries.
#[derive(Clone, Copy, Debug, PartialEq, Eq)]
pub enum SmpClass {
    LidRouted,
    DirectedRoute,
}

/// The method of a packet: its R bit and the seven bits below it.
#[derive(Clone, Copy, Debug, PartialEq, Eq)]
pub struct Method(pub u8);

impl Method {
    pub const GET: Method = Method(0x01);

    pub const SET: Method = Method(0x02);

    /// The answer to a Get or a Set.
    pub const GET_RESP: Method = Method(0x81);
}

/// The status of a packet: in an answer, the outcome of the request. In a directed packet the status is at most 0x7FFF.
#[derive(Clone, Copy, Debug, PartialEq, Eq)]
pub struct Status(pub u16);

impl Status {
    pub const DONE: Status = Status(0x0000);

    pub const METHOD_NOT_SUPPORTED: Status = Status(0x0008);

    pub const METHOD_AND_ATTRIBUTE_NOT_SUPPORTED: Status = Status(0x000C);

    /// A field of the attribute or of the attribute modifier has an invalid value.
    pub const INVALID_FIELD: Status = Status(0x001C);
}

/// The number of the attribute that a packet carries.
#[derive(Clone, Copy, Debug, PartialEq, Eq)]
pub struct AttributeId(pub u16);

impl AttributeId {
    pub const NODE_DESCRIPTION: AttributeId = AttributeId(0x0010);

    pub const NODE_INFO: AttributeId = AttributeId(0x0011);

    pub const SWITCH_INFO: AttributeId = AttributeId(0x0012);

    pub const PORT_INFO: AttributeId = AttributeId(0x0015);

    pub const LINEAR_FORWARDING_TABLE: AttributeId = AttributeId(0x0019);

    pub const MULTICAST_FORWARDING_TABLE: AttributeId = AttributeId(0x001B);

    pub const SM_INFO: AttributeId = AttributeId(0x0020);
}
