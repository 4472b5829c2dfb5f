// Orderings, ranking and counts run on small cases.
use super::counts::Counts;
use super::eliminating::count_elimination;
use super::event_order::{EventOrder, Misordered};
use super::rank::rank;
use marks::set::Marks;
use std::test::Fail;

// Three events, 0 and 1 both beside 2.
fn two_beside_one() -> [Marks; 3] {
    [Marks::only(2), Marks::only(2), Marks::only(0).with(1)]
}

#[test]
fn identity_gives_event_i_rank_i_plus_one(rt: HostRuntime) {
    let order = EventOrder::identity(128);
    assert_eq!(rt; order.count(), 128);
    assert_eq!(rt; order.event_at(128), Some(127));
    assert_eq!(rt; order.rank_of(0), Some(1));
    assert_eq!(rt; order.event_at(0), None);
    assert_eq!(rt; order.event_at(129), None);
    assert_eq!(rt; order.rank_of(128), None);
}

#[test]
fn a_list_tells_ranks_both_ways(rt: HostRuntime) -> Result<(), Fail> {
    let order = EventOrder::from_list(&[2, 0, 1], 3).map_err(|_| Fail::new("refused"))?;
    assert_eq!(rt; order.event_at(1), Some(2));
    assert_eq!(rt; order.rank_of(1), Some(3));
    Ok(())
}

#[test]
fn the_first_fault_is_told(rt: HostRuntime) {
    assert_eq!(rt;
        EventOrder::from_list(&[0, 1], 3).err(),
        Some(Misordered::Count)
    );
    assert_eq!(rt;
        EventOrder::from_list(&[0, 3, 3], 3).err(),
        Some(Misordered::Outside)
    );
    assert_eq!(rt;
        EventOrder::from_list(&[1, 1, 9], 3).err(),
        Some(Misordered::Again)
    );
    assert!(rt; EventOrder::from_list(&[1, 0, 2], 3).is_ok());
}

#[test]
fn fewest_neighbours_get_the_highest_ranks(rt: HostRuntime) {
    let mut near = two_beside_one();
    let order = rank(&mut near);
    assert_eq!(rt; order.event_at(1), Some(2));
    assert_eq!(rt; order.event_at(2), Some(1));
    assert_eq!(rt; order.event_at(3), Some(0));
}

#[test]
fn an_elimination_is_counted(rt: HostRuntime) {
    let mut near = two_beside_one();
    let order = EventOrder::identity(3);
    assert!(rt; order.count == 3);
    let counts = count_elimination(&mut near, &order);
    let expected = Counts {
        width: 2,
        fill: 1,
        looks: 5,
    };
    assert_eq!(rt; counts, expected);
}
