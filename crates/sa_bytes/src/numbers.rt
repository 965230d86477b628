/// The method of a request, without the R bit.
#[derive(Clone, Copy, Debug, PartialEq, Eq)]
pub struct SaMethod(pub u8);

impl SaMethod {
    /// A request for one record.
    pub const GET: SaMethod = SaMethod(0x01);

    pub const SET: SaMethod = SaMethod(0x02);

    /// A request for all records that are as it asks.
    pub const GET_TABLE: SaMethod = SaMethod(0x12);

    pub const DELETE: SaMethod = SaMethod(0x15);

    /// The answer to a Get or a Set.
    pub const GET_RESP: SaMethod = SaMethod(0x81);
}

/// The attribute that a request asks for.
#[derive(Clone, Copy, Debug, PartialEq, Eq)]
pub struct SaAttributeId(pub u16);

impl SaAttributeId {
    pub const CLASS_PORT_INFO: SaAttributeId = SaAttributeId(0x0001);

    pub const NODE_RECORD: SaAttributeId = SaAttributeId(0x0011);

    pub const PORT_INFO_RECORD: SaAttributeId = SaAttributeId(0x0012);

    pub const PATH_RECORD: SaAttributeId = SaAttributeId(0x0035);

    pub const MEMBER_RECORD: SaAttributeId = SaAttributeId(0x0038);
}

/// The outcome of a request.
#[derive(Clone, Copy, Debug, PartialEq, Eq)]
pub struct SaStatus(pub u16);

impl SaStatus {
    pub const DONE: SaStatus = SaStatus(0x0000);

    pub const METHOD_AND_ATTRIBUTE_NOT_SUPPORTED: SaStatus = SaStatus(0x000C);

    /// A component of the request cannot be.
    pub const INVALID_REQUEST: SaStatus = SaStatus(0x0200);

    /// No record is as the request asks.
    pub const NO_RECORDS: SaStatus = SaStatus(0x0300);

    /// More than one record is as a request for one asks.
    pub const TOO_MANY_RECORDS: SaStatus = SaStatus(0x0400);

    /// The request has a GID that it cannot have.
    pub const INVALID_GID: SaStatus = SaStatus(0x0500);

    /// The component mask lacks components that the request needs.
    pub const INSUFFICIENT_COMPONENTS: SaStatus = SaStatus(0x0600);
}
