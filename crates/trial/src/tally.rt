// What a group of cases has gone through, and whether something did not agree.
use net::refusal::Refusal;
use std::fmt;

#[derive(Default, Drop)]
pub struct Tally {
    pub calls: u64,
    pub refused: u64,
    pub closed: u64,
    pub contradictory: u64,
    pub distances: u64,
    pub walks: u64,
    pub sheets: u64,
    mismatch: Option<&'static str>,
}

impl Tally {
    // Keeps the first thing that did not agree.
    pub fn agree(&mut self, agrees: bool, what: &'static str) {
        if !agrees {
            self.mismatch = self.mismatch.or(Some(what));
        }
    }

    // Hands out what did not agree, and forgets it.
    pub fn take_mismatch(&mut self) -> Option<&'static str> {
        self.mismatch.take()
    }

    // Counts a call and holds its answer to the expected one.
    pub fn answer<E: PartialEq + Drop>(
        &mut self,
        expected: Result<(), E>,
        answer: Result<(), E>,
        what: &'static str,
    ) {
        count(&mut self.calls);
        if expected.is_err() {
            count(&mut self.refused);
        }
        self.agree(answer == expected, what);
    }

    // Holds a question's answer to the refusal that is expected.
    pub fn refuses<T: Drop>(
        &mut self,
        answer: Result<T, Refusal>,
        expected: Refusal,
        what: &'static str,
    ) {
        self.agree(answer.is_err_and(|why| why == expected), what);
    }
}

impl fmt::Display for Tally {
    fn fmt<W: fmt::Write>(&self, f: &mut fmt::Formatter<W>) -> fmt::Result {
        let Tally {
            calls,
            refused,
            closed,
            contradictory,
            distances,
            walks,
            sheets,
            ..
        } = self;
        write!(
            f,
            "{calls} calls, {refused} refused, {closed} closed, {contradictory} contradictory, {distances} distances and windows, {walks} walks, {sheets} sheets"
        )
    }
}

pub fn count(counter: &mut u64) {
    *counter = counter.saturating_add(1);
}
