//! A worked example, and each call once.

use jm_recency::Recency;

#[test]
fn touches_and_trims(rt: HostRuntime) {
    let mut recent = Recency::<8>::new();
    recent.touch(3, 5);
    recent.touch(1, 5);
    recent.touch(3, 9);
    assert!(rt; recent.len() == 2);
    assert!(rt; recent.first() == Some(1));
    assert!(rt; recent.next(1) == Some(3));
    assert!(rt; recent.next(3) == None);
    assert!(rt; recent.next(0) == None);
    assert!(rt; recent.stamp(1) == Some(5));
    assert!(rt; recent.stamp(3) == Some(9));
    assert!(rt; recent.stamp(0) == None);
    recent.trim(6);
    assert!(rt; recent.len() == 1);
    assert!(rt; recent.first() == Some(3));
    assert!(rt; recent.stamp(1) == None);
    recent.drop_key(3);
    assert!(rt; recent.len() == 0);
    assert!(rt; recent.first() == None);
}

#[test]
fn walks_and_copies(rt: HostRuntime) {
    let mut recent = Recency::<8>::new();
    recent.touch(7, 1);
    recent.touch(0, 2);
    recent.touch(4, 2);
    recent.drop_key(0);
    assert!(rt; recent.visit(7) == (1, Some(4)));
    assert!(rt; recent.visit(4) == (2, None));
    assert!(rt; recent.holds(7));
    assert!(rt; !recent.holds(0));
    assert!(rt; !recent.holds(65535));
    let mut copy = Recency::<8>::new();
    copy.touch(5, 9);
    copy.copy_from(&recent);
    recent.clear();
    assert!(rt; recent.len() == 0);
    assert!(rt; recent.first() == None);
    recent.touch(2, 3);
    assert!(rt; recent.first() == Some(2));
    assert!(rt; copy.len() == 2);
    assert!(rt; copy.stamp(4) == Some(2));
    assert!(rt; copy.stamp(5) == None);
}

#[test]
fn holds_one_key_or_none(rt: HostRuntime) {
    let mut one = Recency::<1>::new();
    one.touch(0, 1);
    one.touch(0, 4);
    assert!(rt; one.len() == 1);
    assert!(rt; one.stamp(0) == Some(4));
    one.trim(4);
    assert!(rt; one.first() == Some(0));
    one.trim(5);
    assert!(rt; one.first() == None);
    let none = Recency::<0>::new();
    assert!(rt; none.len() == 0);
    assert!(rt; none.next(0) == None);
}
