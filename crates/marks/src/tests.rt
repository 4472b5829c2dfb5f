// Marks on both sides of the border between the halves.
use super::set::Marks;

#[test]
fn members_of_both_words(rt: HostRuntime) {
    let marks = Marks::only(63).with(64).with(127);
    assert_eq!(rt; marks.count(), 3);
    assert_eq!(rt; marks.first(), Some(63));
    assert_eq!(rt; marks.without(63).first(), Some(64));
    assert!(rt; marks.contains(127));
    assert!(rt; !marks.contains(128));
    assert!(rt; !marks.contains(62));
}

#[test]
fn joined_and_parted(rt: HostRuntime) {
    let low = Marks::all_below(70);
    let both = low.intersection(Marks::only(69).with(70));
    assert_eq!(rt; both.count(), 1);
    assert_eq!(rt; low.difference(both).count(), 69);
    assert_eq!(rt; low.union(Marks::only(127)).count(), 71);
    assert_eq!(rt; Marks::none().first(), None);
}

#[test]
fn members_come_from_the_lowest_up(rt: HostRuntime) {
    let mut members = Marks::only(127).with(64).with(63).members();
    assert_eq!(rt; members.next(), Some(63));
    assert_eq!(rt; members.next(), Some(64));
    assert_eq!(rt; members.next(), Some(127));
    assert_eq!(rt; members.next(), None);
}
