// Closing by example: a walk written by a trail, on a small table.
#![tactic(auto)]

#[cfg(test)]
mod tests {
    use closing::trail::Trail;
    use eliminator::eliminate::eliminate;
    use eliminator::start::start;
    use kinds::micros::Micros;
    use marks::set::Marks;
    use order::event_order::EventOrder;
    use std::test::Fail;
    use table::cell::Cell;
    use table::grid::blank;
    use table::lent::Table;

    fn bounded(micros: i64) -> Cell<Micros> {
        Cell {
            bound: Some(Micros(micros)),
            ..blank()
        }
    }

    // Ranks from 0: event 2 has rank 0, event 0 rank 1, and event 1, by which the walk from 0 to 2 goes, rank 2.
    #[test]
    fn a_trail_goes_by_the_event_between(rt: HostRuntime) -> Result<(), Fail> {
        let mut cells = [blank::<Micros>(); 9];
        let mut table = Table::over(&mut cells);
        table.begin(3);
        let order = EventOrder::from_list(&[2, 0, 1], 3).map_err(|_| Fail::new("refused"))?;
        assert!(rt; order.count == 3);
        assert!(rt; table.order.count == 3);
        table.arrange(order);
        table.put(0, 1, bounded(5));
        table.put(1, 2, bounded(7));
        let mut near = [Marks::none(); 3];
        start(&mut table, &mut near);
        assert!(rt; eliminate(&mut table, &mut near).is_ok());
        assert!(rt; table.order.count == 3);

        let mut trail = Trail::from(&table, 1);
        let mut place = [9u8; 128];
        assert_eq!(rt; trail.tell(&mut place), 1);
        assert_eq!(rt; &place[..2], [0, 9].as_slice());
        trail.expand(1, 0);
        assert_eq!(rt; trail.tell(&mut place), 3);
        assert_eq!(rt; &place[..4], [0, 1, 2, 9].as_slice());
        Ok(())
    }
}
