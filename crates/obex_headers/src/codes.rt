//! Codes of requests and responses (IrOBEX 1.5, 3.2.1 and 3.3).

ghost use Rattle.std.specs.Prelude.{◌≡◌, ◌==◌, ◌||◌};
ghost use Rattle.obex_headers.specs.Codes.{octet_of, code_of};

/// The code of a packet. `Other` has the octets that stand for none of the others.
#[derive(Clone, Copy, Debug, PartialEq, Eq)]
pub enum Code {
    /// 80.
    Connect,
    /// 81.
    Disconnect,
    /// 02: a PUT that is not final.
    Put,
    /// 82.
    FinalPut,
    /// 03.
    Get,
    /// 83.
    FinalGet,
    /// 85.
    SetPath,
    /// FF.
    Abort,
    /// 90: the next packet is awaited.
    Continue,
    /// A0.
    Success,
    /// C0.
    BadRequest,
    /// CD: the requested entity is too large.
    TooLarge,
    /// D0.
    InternalError,
    /// D1.
    NotImplemented,
    /// Any other octet.
    Other(u8),
}

impl Code {
    /// The code that an octet is.
    pub fn of(octet: u8) -> Code
        ensures code { result ≡ code_of octet }
        ensures octet { octet_of result ≡ octet }
    {
        match octet {
            0x80 => Code::Connect,
            0x81 => Code::Disconnect,
            0x02 => Code::Put,
            0x82 => Code::FinalPut,
            0x03 => Code::Get,
            0x83 => Code::FinalGet,
            0x85 => Code::SetPath,
            0xFF => Code::Abort,
            0x90 => Code::Continue,
            0xA0 => Code::Success,
            0xC0 => Code::BadRequest,
            0xCD => Code::TooLarge,
            0xD0 => Code::InternalError,
            0xD1 => Code::NotImplemented,
            other => Code::Other(other),
        }
    }

    /// The octet that stands for it.
    pub fn octet(self) -> u8
        ensures { result ≡ octet_of self }
    {
        match self {
            Code::Connect => 0x80,
            Code::Disconnect => 0x81,
            Code::Put => 0x02,
            Code::FinalPut => 0x82,
            Code::Get => 0x03,
            Code::FinalGet => 0x83,
            Code::SetPath => 0x85,
            Code::Abort => 0xFF,
            Code::Continue => 0x90,
            Code::Success => 0xA0,
            Code::BadRequest => 0xC0,
            Code::TooLarge => 0xCD,
            Code::InternalError => 0xD0,
            Code::NotImplemented => 0xD1,
            Code::Other(octet) => octet,
        }
    }
}

/// Whether the code is that of a PUT, final or not.
pub fn is_put(code: u8) -> bool
    ensures { result ≡ ((code == 0x02) || (code == 0x82)) }
{
    code == Code::Put.octet() || code == Code::FinalPut.octet()
}
