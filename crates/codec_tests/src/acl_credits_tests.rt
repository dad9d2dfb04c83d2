use acl_credits::*;
use bt_base::Handle;
use std::test::*;

#[test]
fn packets_of_one_link(rt: HostRuntime) -> Result<(), Fail> {
    let one = Handle::of(1).ok_or("1 is a handle")?;
    let two = Handle::of(2).ok_or("2 is a handle")?;
    let mut ledger = Ledger::new(2);
    assert!(rt; ledger.may_send());
    ledger.sent(one);
    ledger.sent(one);
    assert!(rt; !ledger.may_send());
    assert!(rt; ledger.outstanding(one) == 2);
    assert!(rt; ledger.outstanding(two) == 0);
    assert!(rt; ledger.completed(one, 3) == Err(LedgerRefusal::TooMany));
    assert!(rt; ledger.completed(two, 1) == Err(LedgerRefusal::TooMany));
    assert!(rt; ledger.completed(one, 1) == Ok(()));
    ledger.closed(two);
    assert!(rt; ledger.outstanding(one) == 1);
    ledger.closed(one);
    assert!(rt; ledger.outstanding(one) == 0);
    ledger.sent(two);
    assert!(rt; ledger.outstanding(two) == 1);
    Ok(())
}
