use ertm_model::ErtmReason;
use std::alloc::Global;

/// Each reason with its number and its text.
const REASONS: [(ErtmReason, u8, &str); 6] = [
    (ErtmReason::BadReqSeq, 1, "a ReqSeq of no frame on its way"),
    (ErtmReason::Srej, 3, "a selective reject"),
    (ErtmReason::BadSegment, 4, "a segment without a place"),
    (ErtmReason::RetryLimit, 5, "too many tries"),
    (ErtmReason::TooLongSdu, 6, "an SDU that is too long"),
    (ErtmReason::BadFrame, 7, "a PDU that is no frame"),
];

/// Whether a reason has that number and that text.
fn is_told(alloc: Global, reason: ErtmReason, number: u8, text: &str) -> bool {
    match format!(in alloc; "{reason}") {
        Ok(said) => reason.number() == number && said.as_str() == text,
        Err(_) => false,
    }
}

#[test]
fn reasons_have_numbers_and_texts(rt: HostRuntime) {
    for (reason, number, text) in REASONS.iter() {
        assert!(rt; is_told(rt.alloc(), *reason, *number, *text));
    }
}
