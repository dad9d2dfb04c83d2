use h4_framing::H4Refusal;
use ready_ports::{MemSink, MemSource};
use std::test::Fail;
use three_wire::*;

/// HCI_Reset on a UART.
const RESET: [u8; 4] = [0x01, 0x03, 0x0C, 0x00];

/// The entries of a line that loses nothing, up to the first unit.
const ESTABLISHED: [u8; 96] = [
    0x08, 0x00, 0x08, 0xC0, 0x00, 0x2F, 0x00, 0xD0, 0x01, 0x7E, 0xC0, // SYNC
    0x0A, 0x00, 0x08, 0xC0, 0x00, 0x2F, 0x00, 0xD0, 0x01, 0x7E, 0xC0, // SYNC
    0x0A, 0x00, 0x08, 0xC0, 0x00, 0x2F, 0x00, 0xD0, 0x02, 0x7D, 0xC0, // SYNC RESPONSE
    0x08, 0x00, 0x08, 0xC0, 0x00, 0x2F, 0x00, 0xD0, 0x02, 0x7D, 0xC0, // SYNC RESPONSE
    0x08, 0x00, 0x0A, 0xC0, 0x00, 0x3F, 0x00, 0xDB, 0xDC, 0x03, 0xFC, 0x04, 0xC0, // CONFIG
    0x0A, 0x00, 0x0A, 0xC0, 0x00, 0x3F, 0x00, 0xDB, 0xDC, 0x03, 0xFC, 0x04, 0xC0, // CONFIG
    0x0A, 0x00, 0x0A, 0xC0, 0x00, 0x3F, 0x00, 0xDB, 0xDC, 0x04, 0x7B, 0x04, 0xC0, // CONFIG RESPONSE
    0x08, 0x00, 0x0A, 0xC0, 0x00, 0x3F, 0x00, 0xDB, 0xDC, 0x04, 0x7B, 0x04, 0xC0, // CONFIG RESPONSE
];

/// A unit and its acknowledgement.
const CARRIED: [u8; 21] = [
    0x08, 0x00, 0x09, 0xC0, 0x80, 0x31, 0x00, 0x4E, 0x03, 0x0C, 0x00, 0xC0, 0x0A, 0x00, 0x06, 0xC0,
    0x08, 0x00, 0x00, 0xF7, 0xC0,
];

/// The unit, lost.
const LOST: [u8; 12] = [
    0x09, 0x00, 0x09, 0xC0, 0x80, 0x31, 0x00, 0x4E, 0x03, 0x0C, 0x00, 0xC0,
];

/// Those entries. No contract tells what they are: the run compares them.
fn established() -> &'static [u8] {
    &ESTABLISHED
}

/// The entries of a unit that is carried, and lost before where a number is drawn from.
fn of_unit(number: Option<u32>) -> (&'static [u8], &'static [u8]) {
    match number {
        Some(_) => (&LOST, &CARRIED),
        None => (&[], &CARRIED),
    }
}

/// How a run over these octets ends, with what it leaves in the sink and in the trace. The calls of
/// the sink whose numbers are listed fail.
fn carried(
    rt: &HostRuntime,
    number: Option<u32>,
    octets: &[u8],
    failing: &[u32],
) -> Result<(Result<CarryEnd, CarryFault>, MemSink, MemSink), Fail> {
    let mut source = MemSource::new(rt.alloc(), octets, 3, &[])?;
    let mut sink = MemSink::new(rt.alloc(), failing)?;
    let mut trace = MemSink::new(rt.alloc(), &[])?;
    let end = carry(rt.alloc(), number, &mut source, &mut sink, &mut trace);
    Ok((end, sink, trace))
}

/// The draws of the number 1 lose the ninth packet first.
#[test]
fn one_unit_is_carried(rt: HostRuntime) -> Result<(), Fail> {
    for number in [None, Some(1)] {
        let (lost, carried_over) = of_unit(number);
        let mut expected = Vec::from_slice(rt.alloc(), established())?;
        expected.extend_from_slice(lost)?;
        expected.extend_from_slice(carried_over)?;
        let (end, sink, trace) = carried(&rt, number, &RESET, &[])?;
        assert_eq!(rt; end, Ok(CarryEnd::All));
        assert_eq!(rt; sink.octets(), RESET.as_slice());
        assert_eq!(rt; trace.octets(), expected.as_slice());
    }
    Ok(())
}

/// A source is read where the first end is active, and a refusal stops the run at once.
#[test]
fn a_refusal_stops_the_run(rt: HostRuntime) -> Result<(), Fail> {
    let refused = Err(CarryFault::Refused(H4Refusal::BadIndicator, 4));
    let (end, sink, trace) = carried(&rt, None, &[0x01, 0x03, 0x0C, 0x00, 0x05], &[])?;
    assert_eq!(rt; end, refused);
    assert_eq!(rt; sink.octets(), [].as_slice());
    assert_eq!(rt; Some(trace.octets()), established().get(..83));
    Ok(())
}

#[test]
fn a_sink_that_fails_stops_the_run(rt: HostRuntime) -> Result<(), Fail> {
    let (end, sink, _) = carried(&rt, None, &RESET, &[1])?;
    assert_eq!(rt; end, Err(CarryFault::WriteFault));
    assert_eq!(rt; sink.octets(), [].as_slice());
    Ok(())
}
