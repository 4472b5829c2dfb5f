// The timing sheet by example, byte by byte.
#![tactic(auto)]

#[cfg(test)]
mod tests {
    use kinds::kind::Kind;
    use kinds::micros::Micros;
    use kinds::strict::StrictMicros;
    use net::net::Net;
    use net::refusal::Refusal;
    use sheet::fault::{RecordFault, SheetFault};
    use sheet::reading::read;
    use sheet::writing::write;
    use std::test::Fail;
    use table::grid::blank;

    // Three events: 0→1 100, 1→0 −40, 1→2 50, 2→1 −10, 0→2 200.
    // In each test crate that reads it: the bytes stand beside what is expected of them.
    const CYCLE: [u8; 71] = [
        1, 0, 3, 1, 3, 1, 0, 11, 2, 0, 1, 0, 0, 0, 0, 0, 0, 0, 100, 0, 11, 2, 1, 0, 255, 255, 255,
        255, 255, 255, 255, 216, 0, 11, 2, 1, 2, 0, 0, 0, 0, 0, 0, 0, 50, 0, 11, 2, 2, 1, 255, 255,
        255, 255, 255, 255, 255, 246, 0, 11, 2, 0, 2, 0, 0, 0, 0, 0, 0, 0, 200,
    ];

    // The fault of a sheet over nine cells: its number, its layer and its offset.
    // By numbers, since hosts are told these and the tests pin them.
    fn fault_of(sheet: &[u8]) -> Option<(u8, u8, usize)> {
        let mut table = [blank::<Micros>(); 9];
        let mut net = Net::make(&mut table);
        read(&mut net, sheet).err().map(|fault| (
            fault.number(),
            fault.layer().number(),
            fault.offset(),
        ))
    }

    // Whether the bytes stand at that offset of the place.
    fn holds(place: &[u8], at: usize, bytes: &[u8]) -> bool {
        place.get(at..).is_some_and(|rest| rest.starts_with(bytes))
    }

    #[test]
    fn reads_a_cycle_of_three_events(rt: HostRuntime) {
        let mut table = [blank(); 9];
        let mut net = Net::make(&mut table);
        assert_eq!(rt; read(&mut net, &CYCLE), Ok(()));
        assert_eq!(rt; net.events(), 3);
        assert_eq!(rt; net.bound(0, 1), Ok(Some(Micros(100))));
        assert_eq!(rt; net.bound(1, 0), Ok(Some(Micros(-40))));
        assert_eq!(rt; net.bound(1, 2), Ok(Some(Micros(50))));
        assert_eq!(rt; net.bound(2, 1), Ok(Some(Micros(-10))));
        assert_eq!(rt; net.bound(0, 2), Ok(Some(Micros(200))));
        assert_eq!(rt; net.bound(2, 0), Ok(None));
        assert_eq!(rt; net.event_at(3), Some(2));
    }

    #[test]
    fn names_the_record_at_fault(rt: HostRuntime) {
        assert_eq!(rt; fault_of(&[]), Some((21, 1, 0)));
        assert_eq!(rt; fault_of(&[2, 0, 3, 1, 3, 1]), Some((21, 1, 0)));
        assert_eq!(rt; fault_of(&[1]), Some((24, 2, 1)));
        assert_eq!(rt; fault_of(&[1, 0, 3, 1, 3]), Some((22, 1, 1)));
        assert_eq!(rt; fault_of(&[1, 0]), Some((22, 1, 1)));
        assert_eq!(rt; fault_of(&[1, 0, 3, 1, 3, 1, 0]), Some((22, 1, 6)));
        assert_eq!(rt; fault_of(&[1, 0, 0]), Some((23, 2, 1)));
        assert_eq!(rt; fault_of(&[1, 0, 1, 4]), Some((23, 2, 1)));
        assert_eq!(rt; fault_of(&[1, 0, 2, 1, 3]), Some((23, 2, 1)));
        assert_eq!(rt; fault_of(&[1, 0, 2, 3, 0]), Some((24, 2, 1)));
        assert_eq!(rt;
            fault_of(&[1, 0, 3, 1, 3, 1, 0, 3, 1, 3, 1]),
            Some((24, 2, 6))
        );
        assert_eq!(rt; fault_of(&[1, 0, 3, 1, 3, 2]), Some((25, 2, 1)));
    }

    #[test]
    fn carries_the_refusal_of_the_net(rt: HostRuntime) {
        assert_eq!(rt; fault_of(&[1, 0, 3, 1, 0, 1]), Some((1, 3, 1)));
        assert_eq!(rt; fault_of(&[1, 0, 3, 1, 4, 1]), Some((2, 3, 1)));
        let three_is_no_event = [1, 0, 3, 1, 3, 1, 0, 11, 2, 0, 3, 0, 0, 0, 0, 0, 0, 0, 9];
        assert_eq!(rt; fault_of(&three_is_no_event), Some((3, 3, 6)));
        let to_itself = [1, 0, 3, 1, 3, 1, 0, 11, 2, 2, 2, 0, 0, 0, 0, 0, 0, 0, 9];
        assert_eq!(rt; fault_of(&to_itself), Some((4, 3, 6)));
        let too_large = [1, 0, 3, 1, 3, 1, 0, 11, 2, 0, 1, 0, 0, 1, 0, 0, 0, 0, 1];
        assert_eq!(rt; fault_of(&too_large), Some((11, 3, 6)));
        assert_eq!(rt; fault_of(&[1, 0, 3, 1, 3, 1, 0, 1, 3]), Some((13, 3, 6)));
        assert_eq!(rt;
            fault_of(&[1, 0, 3, 1, 3, 1, 0, 4, 3, 0, 3, 0]),
            Some((14, 3, 6))
        );
        assert_eq!(rt;
            fault_of(&[1, 0, 3, 1, 3, 1, 0, 4, 3, 0, 1, 0]),
            Some((15, 3, 6))
        );
        let mut table = [blank::<Micros>(); 9];
        let mut net = Net::make(&mut table);
        let fault = RecordFault::Refused(Refusal::NamedTwice);
        assert_eq!(rt;
            read(&mut net, &[1, 0, 3, 1, 2, 1, 0, 3, 3, 1, 1]),
            Err(SheetFault::AtRecord { offset: 6, fault })
        );
    }

    #[test]
    fn leaves_the_net_as_it_was_when_it_refuses(rt: HostRuntime) {
        let mut table = [blank(); 9];
        let mut net = Net::make(&mut table);
        assert_eq!(rt; read(&mut net, &CYCLE), Ok(()));
        assert!(rt; read(&mut net, &[1, 0, 3, 1, 2, 1, 0, 3, 3, 1, 1]).is_err());
        assert_eq!(rt; net.events(), 3);
        assert_eq!(rt; net.bound(2, 1), Ok(Some(Micros(-10))));
    }

    #[test]
    fn writes_what_reads_back(rt: HostRuntime) -> Result<(), Fail> {
        let mut table = [blank::<Micros>(); 9];
        let mut net = Net::make(&mut table);
        let mut place = [7u8; 80];
        assert_eq!(rt; write(&net, &mut place), Err(Refusal::EventsOutOfRange));
        assert_eq!(rt; read(&mut net, &CYCLE), Ok(()));
        net.arrange(&[2, 0, 1])?;
        assert_eq!(rt; write(&net, &mut place[..76]), Err(Refusal::PlaceTooShort));
        assert_eq!(rt; place[0], 7);
        assert_eq!(rt; write(&net, &mut place), Ok(77));
        assert!(rt; holds(&place, 0, &CYCLE[..19]));
        assert!(rt; holds(&place, 71, &[0u8, 4, 3, 2, 0, 1, 7, 7, 7]));
        let mut other_table = [blank(); 10];
        let mut other = Net::make(&mut other_table);
        let written = place.get(..77).ok_or("as long as was told")?;
        assert_eq!(rt; read(&mut other, written), Ok(()));
        assert_eq!(rt; other.bound(1, 0), Ok(Some(Micros(-40))));
        assert_eq!(rt; other.bound(0, 2), Ok(Some(Micros(200))));
        assert_eq!(rt; other.bound(2, 0), Ok(None));
        assert_eq!(rt; other.event_at(1), Some(2));
        assert_eq!(rt; other.event_at(3), Some(1));
        Ok(())
    }

    #[test]
    fn takes_strict_bounds_of_sixteen_bytes(rt: HostRuntime) {
        let sheet = [
            1, 0, 3, 1, 2, 2, 0, 19, 2, 0, 1, 0, 0, 0, 0, 0, 0, 0, 5, 255, 255, 255, 255, 255, 255,
            255, 255,
        ];
        let mut table = [blank(); 4];
        let mut net = Net::make(&mut table);
        assert_eq!(rt; read(&mut net, &sheet), Ok(()));
        let bound = StrictMicros {
            number: 5,
            mark: -1,
        };
        assert_eq!(rt; net.bound(0, 1), Ok(Some(bound)));
        let mut place = [0u8; 32];
        assert_eq!(rt; write(&net, &mut place), Ok(32));
        assert!(rt; holds(&place, 0, &sheet));
        assert_eq!(rt; fault_of(&sheet), Some((25, 2, 1)));
    }
}
