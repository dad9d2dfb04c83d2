use rfcomm_credits::*;

#[test]
fn credits_of_the_peer(rt: HostRuntime) {
    let mut account = Account::new(7, 7);
    for _ in 0..3 {
        assert!(rt; account.heard() == Ok(()));
    }
    assert!(rt; account.to_grant() == 0);
    assert!(rt; account.heard() == Ok(()));
    assert!(rt; account.to_grant() == 4);
    for _ in 0..3 {
        assert!(rt; account.heard() == Ok(()));
    }
    assert!(rt; account.to_grant() == 7);
    assert!(rt; account.heard() == Err(AccountRefusal::Overdrawn));
    let n = account.to_grant();
    account.gave(n);
    assert!(rt; account.to_grant() == 0);
    assert!(rt; account.heard() == Ok(()));
}

#[test]
fn credits_held(rt: HostRuntime) {
    let mut account = Account::new(40, 0);
    assert!(rt; !account.may_send());
    assert!(rt; account.granted(2) == Ok(()));
    for _ in 0..2 {
        if account.may_send() {
            account.spent();
        }
    }
    assert!(rt; !account.may_send());
    for _ in 0..257 {
        assert!(rt; account.granted(255) == Ok(()));
    }
    assert!(rt; account.granted(1) == Err(AccountRefusal::Overflow));
    assert!(rt; account.may_send());
    assert!(rt; account.granted(0) == Ok(()));
}
