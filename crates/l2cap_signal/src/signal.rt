/// A signalling command (Core 5.1, Volume 3 Part A, section 4). What it lends are octets of its payload.
#[derive(Clone, Copy, Debug, PartialEq, Eq)]
pub struct Signal<'a> {
    /// Ties a response to its request; 1 to 255.
    pub identifier: u8,
    pub kind: SignalKind<'a>,
}

/// What a command says, one variant to a code.
#[derive(Clone, Copy, Debug, PartialEq, Eq)]
pub enum SignalKind<'a> {
    /// Code 01 (section 4.1).
    Reject {
        reason: u16,
        rest: &'a [u8],
    },
    /// Code 02 (section 4.2).
    ConnectionRequest {
        psm: u16,
        source: u16,
    },
    /// Code 03 (section 4.3).
    ConnectionResponse {
        destination: u16,
        source: u16,
        result: u16,
        status: u16,
    },
    /// Code 04 (section 4.4).
    ConfigurationRequest {
        destination: u16,
        flags: u16,
        options: &'a [u8],
    },
    /// Code 05 (section 4.5).
    ConfigurationResponse {
        source: u16,
        flags: u16,
        result: u16,
        options: &'a [u8],
    },
    /// Code 06 (section 4.6).
    DisconnectionRequest {
        destination: u16,
        source: u16,
    },
    /// Code 07 (section 4.7).
    DisconnectionResponse {
        destination: u16,
        source: u16,
    },
    /// Code 08 (section 4.8).
    EchoRequest {
        octets: &'a [u8],
    },
    /// Code 09 (section 4.9).
    EchoResponse {
        octets: &'a [u8],
    },
    /// Code 0A (section 4.10).
    InformationRequest {
        kind: u16,
    },
    /// Code 0B (section 4.11).
    InformationResponse {
        kind: u16,
        result: u16,
        rest: &'a [u8],
    },
}
