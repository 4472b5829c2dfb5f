// The net by example, at the edges of what it takes.
#![tactic(auto)]

#[cfg(test)]
mod tests {
    use kinds::micros::Micros;
    use kinds::strict::StrictMicros;
    use net::mode::Mode;
    use net::net::Net;
    use net::refusal::Refusal;
    use order::counts::Counts;
    use std::test::Fail;
    use table::grid::blank;

    // 2^40, written out: what a test expects comes from outside.
    const LARGEST: i64 = 1_099_511_627_776;

    #[test]
    fn begins_with_as_many_events_as_the_table_has_room_for(rt: HostRuntime) -> Result<(), Fail> {
        let mut table = [blank::<Micros>(); 16384];
        let mut net = Net::make(&mut table);
        assert_eq!(rt; net.events(), 0);
        assert_eq!(rt; net.mode(), Mode::Open);
        net.begin(128)?;
        assert_eq!(rt; net.events(), 128);
        assert_eq!(rt; net.begin(129), Err(Refusal::EventsOutOfRange));
        assert_eq!(rt; net.begin(0), Err(Refusal::EventsOutOfRange));
        assert_eq!(rt; net.events(), 128);
        assert_eq!(rt; net.event_at(128), Some(127));
        assert_eq!(rt; net.rank_of(127), Some(128));
        assert_eq!(rt; net.event_at(129), None);
        Ok(())
    }

    #[test]
    fn refuses_a_table_of_one_cell_less(rt: HostRuntime) -> Result<(), Fail> {
        let mut table = [blank::<Micros>(); 16383];
        let mut net = Net::make(&mut table);
        assert_eq!(rt; net.begin(128), Err(Refusal::TooFewCells));
        net.begin(127)?;
        assert_eq!(rt; net.events(), 127);
        Ok(())
    }

    #[test]
    fn takes_bounds_up_to_the_largest_size(rt: HostRuntime) -> Result<(), Fail> {
        let mut table = [blank(); 9];
        let mut net = Net::make(&mut table);
        net.begin(3)?;
        net.require(0, 1, Micros(LARGEST))?;
        assert_eq!(rt;
            net.require(0, 1, Micros(LARGEST + 1)),
            Err(Refusal::TooLarge)
        );
        assert_eq!(rt;
            net.require(0, 1, Micros(-LARGEST - 1)),
            Err(Refusal::TooLarge)
        );
        assert_eq!(rt; net.require(0, 3, Micros(0)), Err(Refusal::NoSuchEvent));
        assert_eq!(rt;
            net.require(1, 1, Micros(LARGEST + 1)),
            Err(Refusal::SameEvent)
        );
        assert_eq!(rt; net.bound(0, 1), Ok(Some(Micros(LARGEST))));
        Ok(())
    }

    #[test]
    fn keeps_the_least_bound_until_it_is_withdrawn(rt: HostRuntime) -> Result<(), Fail> {
        let mut table = [blank(); 4];
        let mut net = Net::make(&mut table);
        net.begin(2)?;
        net.require(0, 1, Micros(5))?;
        net.require(0, 1, Micros(9))?;
        net.require(1, 0, Micros(7))?;
        assert_eq!(rt; net.bound(0, 1), Ok(Some(Micros(5))));
        net.withdraw(0, 1)?;
        assert_eq!(rt; net.bound(0, 1), Ok(None));
        assert_eq!(rt; net.withdraw(0, 1), Err(Refusal::NothingToWithdraw));
        assert_eq!(rt; net.bound(1, 0), Ok(Some(Micros(7))));
        net.require(0, 1, Micros(9))?;
        assert_eq!(rt; net.bound(0, 1), Ok(Some(Micros(9))));
        Ok(())
    }

    #[test]
    fn refuses_what_is_no_ordering(rt: HostRuntime) -> Result<(), Fail> {
        let mut table = [blank::<Micros>(); 9];
        let mut net = Net::make(&mut table);
        net.begin(3)?;
        assert_eq!(rt; net.arrange(&[0, 1]), Err(Refusal::WrongCount));
        assert_eq!(rt; net.arrange(&[0, 3, 0]), Err(Refusal::OutsideNet));
        assert_eq!(rt; net.arrange(&[0, 0, 3]), Err(Refusal::NamedTwice));
        net.arrange(&[2, 0, 1])?;
        assert_eq!(rt; net.event_at(1), Some(2));
        assert_eq!(rt; net.rank_of(1), Some(3));
        Ok(())
    }

    #[test]
    fn ranks_by_fewest_neighbours(rt: HostRuntime) -> Result<(), Fail> {
        let mut table = [blank(); 9];
        let mut net = Net::make(&mut table);
        net.begin(3)?;
        net.require(0, 2, Micros(5))?;
        net.require(1, 2, Micros(5))?;
        net.rank();
        assert_eq!(rt; net.event_at(1), Some(2));
        assert_eq!(rt; net.event_at(2), Some(1));
        assert_eq!(rt; net.event_at(3), Some(0));
        let mut place = [0u8; 3];
        let expected = Counts {
            width: 1,
            fill: 0,
            looks: 3,
        };
        assert_eq!(rt; net.close(&mut place), Ok(expected));
        Ok(())
    }

    #[test]
    fn closes_a_bus_cycle(rt: HostRuntime) -> Result<(), Fail> {
        let mut table = [blank(); 9];
        let mut net = Net::make(&mut table);
        net.begin(3)?;
        net.require(0, 1, Micros(100))?;
        net.require(1, 0, Micros(-40))?;
        net.require(1, 2, Micros(50))?;
        net.require(2, 1, Micros(-10))?;
        net.require(0, 2, Micros(200))?;
        assert!(rt; net.distance(0, 2).is_err());
        let mut place = [9u8; 4];
        let expected = Counts {
            width: 2,
            fill: 0,
            looks: 5,
        };
        assert_eq!(rt; net.close(&mut place), Ok(expected));
        assert_eq!(rt; place, [9, 9, 9, 9]);
        assert_eq!(rt; net.mode(), Mode::Closed);
        assert_eq!(rt; net.distance(0, 2), Ok(Some(Micros(150))));
        let window = (Some(Micros(50)), Some(Micros(150)));
        assert_eq!(rt; net.window(0, 2), Ok(window));
        assert_eq!(rt; net.walk(0, 2, &mut place), Ok(Some(3)));
        assert_eq!(rt; place, [0, 1, 2, 9]);
        let mut times = [Micros(0); 3];
        net.times(&mut times)?;
        assert_eq!(rt; times, [Micros(-50), Micros(-10), Micros(0)]);
        net.begin(3)?;
        assert_eq!(rt; net.times(&mut times), Err(Refusal::NotClosed));
        Ok(())
    }

    #[test]
    fn shows_the_loop_of_a_contradiction(rt: HostRuntime) -> Result<(), Fail> {
        let mut table = [blank(); 4];
        let mut net = Net::make(&mut table);
        net.begin(2)?;
        net.require(0, 1, Micros(1))?;
        net.require(1, 0, Micros(-5))?;
        let mut place = [9u8; 3];
        assert!(rt; net.close(&mut place[..1]).is_err());
        assert_eq!(rt; place, [9, 9, 9]);
        assert!(rt; matches!(net.close(&mut place), Err(Refusal::Contradiction(2))));
        assert_eq!(rt; place[2], 9);
        assert_eq!(rt; net.mode(), Mode::Open);
        net.require(0, 1, Micros(-9))?;
        net.withdraw(0, 1)?;
        net.require(0, 1, Micros(5))?;
        net.close(&mut place)?;
        let window = (Some(Micros(5)), Some(Micros(5)));
        assert_eq!(rt; net.window(0, 1), Ok(window));
        Ok(())
    }

    #[test]
    fn strict_bounds_leave_no_time(rt: HostRuntime) -> Result<(), Fail> {
        let mut table = [blank(); 4];
        let mut net = Net::make(&mut table);
        net.begin(2)?;
        net.require(
            0,
            1,
            StrictMicros {
                number: 5,
                mark: -1,
            },
        )?;
        net.require(
            1,
            0,
            StrictMicros {
                number: -5,
                mark: 0,
            },
        )?;
        let mut place = [0u8; 2];
        assert!(rt; matches!(net.close(&mut place), Err(Refusal::Contradiction(2))));
        Ok(())
    }
}
