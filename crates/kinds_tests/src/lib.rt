// The kinds of bound by example, at the edges of their numbers.
#![tactic(auto)]

#[cfg(test)]
mod tests {
    use kinds::kind::{Kind, WrongLength};
    use kinds::micros::Micros;
    use kinds::strict::StrictMicros;
    use kinds::total::{keepable, total};
    use std::cmp::Ordering;

    // 2^60, written out: what a test expects comes from outside.
    const LARGEST: i64 = 1152921504606846976;

    fn strict(number: i64, mark: i64) -> StrictMicros {
        StrictMicros { number, mark }
    }

    #[test]
    fn sums_end_at_the_limit(rt: HostRuntime) {
        assert_eq!(rt; Micros(LARGEST - 1).sum(Micros(1)), Some(Micros(LARGEST)));
        assert_eq!(rt; Micros(LARGEST).sum(Micros(1)), None);
        assert_eq!(rt; Micros(LARGEST).sum(Micros(-1)), None);
        assert_eq!(rt; Micros(i64::MIN).sum(Micros(0)), None);
        assert_eq!(rt; strict(0, LARGEST).sum(strict(1, 0)), None);
        assert_eq!(rt; strict(1, 0).sum(strict(1, 0)), Some(strict(2, 0)));
    }

    #[test]
    fn opposites_end_at_the_limit(rt: HostRuntime) {
        assert_eq!(rt; Micros(LARGEST).opposite(), Some(Micros(-LARGEST)));
        assert_eq!(rt; Micros(LARGEST + 1).opposite(), None);
        assert_eq!(rt; Micros(i64::MIN).opposite(), None);
        assert_eq!(rt; Micros(i64::MAX).opposite(), None);
        assert_eq!(rt; strict(5, -1).opposite(), Some(strict(-5, 1)));
    }

    #[test]
    fn sizes_and_order(rt: HostRuntime) {
        assert_eq!(rt; Micros(i64::MIN).size(), 9223372036854775808);
        assert_eq!(rt; Micros(i64::MAX).size(), 9223372036854775807);
        assert_eq!(rt; strict(5, -1).compare(strict(5, 0)), Ordering::Less);
        assert_eq!(rt; strict(5, 0).compare(strict(5, -1)), Ordering::Greater);
        assert_eq!(rt; Micros(-3).compare(Micros(-3)), Ordering::Equal);
        assert_eq!(rt; strict(5, -1).size(), 5);
    }

    #[test]
    fn bytes_name_bounds(rt: HostRuntime) {
        assert_eq!(rt; Micros::read(&[0; 8]), Some(Micros(0)));
        assert_eq!(rt; Micros::read(&[255; 8]), Some(Micros(-1)));
        assert_eq!(rt;
            Micros::read(&[128, 0, 0, 0, 0, 0, 0, 0]),
            Some(Micros(i64::MIN))
        );
        assert_eq!(rt; Micros::read(&[0; 7]), None);
        assert_eq!(rt; StrictMicros::read(&[255; 16]), Some(strict(-1, -1)));
    }

    #[test]
    fn bytes_come_back(rt: HostRuntime) {
        let mut place = [7; 16];
        assert_eq!(rt; Micros(9).write(&mut place), Err(WrongLength));
        assert_eq!(rt; place[0], 7);
        assert_eq!(rt; strict(-2, 3).write(&mut place), Ok(()));
        assert_eq!(rt; StrictMicros::read(&place), Some(strict(-2, 3)));
    }

    #[test]
    fn loops_that_can_and_cannot_be_kept(rt: HostRuntime) {
        let kept = [Micros(10), Micros(-4), Micros(-6)];
        assert_eq!(rt; total(&kept), Some(Micros(0)));
        assert_eq!(rt; keepable(&kept), Some(true));
        let broken = [Micros(10), Micros(-4), Micros(-7)];
        assert_eq!(rt; keepable(&broken), Some(false));
    }
}
