// Lists of calls by example: accepted and refused ones, and what the net tells after them.
#![tactic(auto)]

#[cfg(test)]
mod tests {
    use history::call::Call;
    use history::performing::perform;
    use history::rejection::Rejection;
    use kinds::micros::Micros;
    use net::refusal::Refusal;
    use sheet::fault::SheetFault;
    use table::grid::blank;

    // Three events, 0 to 1 at most 100, 1 to 0 at most -40, 1 to 2 at most 50, 2 to 1 at most -10, 0 to 2 at most 200.
    // In each test crate that reads it: the bytes stand beside what is expected of them.
    const SHEET: [u8; 71] = [
        1, 0, 3, 1, 3, 1, 0, 11, 2, 0, 1, 0, 0, 0, 0, 0, 0, 0, 100, 0, 11, 2, 1, 0, 255, 255, 255,
        255, 255, 255, 255, 216, 0, 11, 2, 1, 2, 0, 0, 0, 0, 0, 0, 0, 50, 0, 11, 2, 2, 1, 255, 255,
        255, 255, 255, 255, 255, 246, 0, 11, 2, 0, 2, 0, 0, 0, 0, 0, 0, 0, 200,
    ];

    // Whether the answers have these numbers.
    fn same(answers: &[Result<(), Rejection>], expected: &[Option<u8>]) -> bool {
        // by number, as hosts know them
        answers.len() == expected.len()
            && answers.iter().zip(expected).all(|(answer, number)| answer
                .err()
                .map(Rejection::number)
                == *number)
    }

    #[test]
    fn refused_calls_count_as_none(rt: HostRuntime) {
        let mut table = [blank(); 9];
        let mut place = [9u8; 4];
        let unused = Err(Rejection::Call(Refusal::Contradiction(99)));
        let mut answers = [unused; 12];
        let calls = [
            Call::Close(0),
            Call::Require(0, 1, Micros(7)),
            Call::Begin(3),
            Call::Require(0, 0, Micros(5)),
            Call::Read(&SHEET),
            Call::Read(&SHEET[..70]),
            Call::Arrange(&[2, 1, 0]),
            Call::Arrange(&[0, 0, 1]),
            Call::Withdraw(2, 0),
            Call::Rank,
            Call::Close(2),
        ];
        let report = perform(&mut table, &calls, &mut place, &mut answers, 0, 2);
        let expected = [
            None,
            Some(3),
            None,
            Some(4),
            None,
            Some(22),
            None,
            Some(15),
            Some(12),
            None,
            Some(5),
        ];
        assert!(rt; same(&answers[..11], &expected));
        assert_eq!(rt; answers[1], Err(Rejection::Call(Refusal::NoSuchEvent)));
        assert_eq!(rt;
            answers[5],
            Err(Rejection::Sheet(SheetFault::Cut { offset: 58 }))
        );
        assert_eq!(rt; answers[11], unused);
        assert!(rt; !report.before.closed);
        assert!(rt; report.before.distance.is_err());
        assert_eq!(rt; report.closing, Ok(()));
        assert!(rt; report.after.closed);
        assert_eq!(rt; report.after.distance, Ok(Some(Micros(150))));
        let window = (Some(Micros(50)), Some(Micros(150)));
        assert_eq!(rt; report.after.window, Ok(window));
        assert_eq!(rt; place[0], 9);
    }

    #[test]
    fn contradiction_shows_a_loop(rt: HostRuntime) {
        let mut table = [blank(); 4];
        let mut place = [9u8; 3];
        let mut answers = [Ok(()); 5];
        let calls = [
            Call::Begin(2),
            Call::Arrange(&[1, 0]),
            Call::Require(0, 1, Micros(1)),
            Call::Require(1, 0, Micros(-5)),
            Call::Close(2),
        ];
        let report = perform(&mut table, &calls, &mut place, &mut answers, 0, 1);
        assert_eq!(rt; answers[4], Err(Rejection::Call(Refusal::Contradiction(2))));
        assert!(rt; same(&answers[4..], &[Some(16)]));
        assert!(rt; !report.before.closed);
        assert_eq!(rt; report.closing, Err(Refusal::Contradiction(2)));
        assert!(rt; place[0] < 2);
        assert!(rt; place[1] < 2);
        assert!(rt; place[0] != place[1]);
        assert_eq!(rt; place[2], 9);
        assert!(rt; !report.after.closed);
    }

    #[test]
    fn withdrawal_ends_a_contradiction(rt: HostRuntime) {
        let mut table = [blank(); 4];
        let mut place = [9u8; 3];
        let mut answers = [Ok(()); 4];
        let calls = [
            Call::Begin(2),
            Call::Require(0, 1, Micros(1)),
            Call::Require(1, 0, Micros(-5)),
            Call::Withdraw(0, 1),
            Call::Require(0, 1, Micros(5)),
            Call::Close(2),
        ];
        let report = perform(&mut table, &calls, &mut place, &mut answers, 0, 1);
        assert!(rt; report.before.closed);
        let window = (Some(Micros(5)), Some(Micros(5)));
        assert_eq!(rt; report.before.window, Ok(window));
    }
}
