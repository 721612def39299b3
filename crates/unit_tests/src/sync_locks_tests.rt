//! Synchronisers and locks: calls in turn, by hand.
use sync_locks::{Bad, Claim, Syncs};

#[test]
fn a_master_binds_slaves_and_lets_them_go(rt: HostRuntime) {
    let mut syncs = Syncs::new();
    let before = (syncs.master(0), syncs.bind(0, 0, 1));
    let got = (
        syncs.get_sync(2),
        syncs.master(0),
        syncs.bind(0, 3, 1),
        syncs.slaves(0),
    );
    assert!(rt; before == (None, Err(Bad)) && got == (Some(0), Some(2), Err(Bad), 0));
    let bound = [
        syncs.bind(0, 2, 1),
        syncs.bind(0, 2, 7),
        syncs.bind(0, 2, 1),
    ];
    assert!(rt; bound == [Ok(()); 3] && syncs.slaves(0) == 0b1000_0010);
    assert!(rt; syncs.sync_of(7) == Some(0) && syncs.sync_of(2) == None);
    let freed = syncs.free_sync(0, 2);
    syncs.unbind_all(0);
    assert!(rt; freed == Err(Bad) && syncs.slaves(0) == 0 && syncs.sync_of(7) == None);
}

#[test]
fn a_synchroniser_is_freed_by_its_master(rt: HostRuntime) {
    let mut syncs = Syncs::new();
    let got = [syncs.get_sync(2), syncs.get_sync(3)];
    let bound = (syncs.bind(1, 3, 4), syncs.sync_of(4));
    assert!(rt; got == [Some(0), Some(1)] && bound == (Ok(()), Some(1)));
    let freed = [
        syncs.free_sync(0, 3),
        syncs.free_sync(0, 2),
        syncs.free_sync(0, 2),
    ];
    assert!(rt; freed == [Err(Bad), Ok(()), Err(Bad)] && syncs.master(0) == None);
    let again = syncs.get_sync(5);
    assert!(rt; again == Some(0) && syncs.master(0) == Some(5) && syncs.slaves(255) == 0);
}

#[test]
fn seven_synchronisers_and_four_locks_are_there(rt: HostRuntime) {
    let mut syncs = Syncs::new();
    for n in 0..8 {
        let want = if n < 7 { Some(n) } else { None };
        assert!(rt; syncs.get_sync(1) == want);
    }
    for n in 0..8 {
        let want = if n < 4 { Some(n) } else { None };
        assert!(rt; syncs.get_lock() == want);
    }
}

#[test]
fn a_lock_has_one_owner(rt: HostRuntime) {
    let mut syncs = Syncs::new();
    let before = syncs.claim(0, 1);
    let got = (syncs.get_lock(), syncs.owner(0), syncs.release(0, 1));
    assert!(rt; before == Claim::Bad && got == (Some(0), None, Err(Bad)));
    let claimed = (syncs.claim(0, 1), syncs.owner(0));
    let again = [syncs.claim(0, 1), syncs.claim(0, 2)];
    assert!(rt; claimed == (Claim::Got, Some(1)) && again == [Claim::Bad, Claim::Held]);
    let kept = [syncs.release(0, 2), syncs.free_lock(0), syncs.release(0, 1)];
    let next = (syncs.claim(0, 2), syncs.release(0, 2));
    assert!(rt; kept == [Err(Bad), Err(Bad), Ok(())] && next == (Claim::Got, Ok(())));
    let freed = [syncs.free_lock(0), syncs.free_lock(0)];
    let after = syncs.claim(0, 2);
    assert!(rt; freed == [Ok(()), Err(Bad)] && after == Claim::Bad && syncs.owner(255) == None);
}
