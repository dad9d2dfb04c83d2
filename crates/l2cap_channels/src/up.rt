/// What is handed up of a PDU that comes in.
#[derive(Clone, Copy, Debug, PartialEq, Eq)]
pub enum Up<'a> {
    /// No SDU came to its end.
    Nothing,
    /// An SDU on the channel of the own endpoint `cid`, which is for the multiplexer `psm`.
    Received { cid: u16, psm: u16, sdu: &'a [u8] },
}
