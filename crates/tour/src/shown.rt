// How calls, answers and what a net tells are shown.
use history::call::{Asked, Call};
use history::rejection::Rejection;
use kinds::kind::Kind;
use net::refusal::Refusal;
use std::fmt;
use std::fmt::Display;

// Each event with a space before it.
#[derive(Drop)]
struct Events<'e>(&'e [u8]);

impl Display for Events<'_> {
    fn fmt<W: fmt::Write>(&self, f: &mut fmt::Formatter<W>) -> fmt::Result {
        for event in self.0 {
            write!(f, " {event}")?;
        }
        Ok(())
    }
}

#[derive(Drop)]
pub struct ShownCall<'a, 'c, K>(pub &'a Call<'c, K>);

impl<K: Kind + Display> Display for ShownCall<'_, '_, K> {
    fn fmt<W: fmt::Write>(&self, f: &mut fmt::Formatter<W>) -> fmt::Result {
        match self.0 {
            Call::Begin(n) => write!(f, "begin with {n} events"),
            Call::Read(sheet) => write!(f, "read a sheet of {} bytes", sheet.len()),
            Call::Require(i, j, bound) => write!(f, "from {i} to {j} at most {bound}"),
            Call::Withdraw(i, j) => write!(f, "withdraw the bound from {i} to {j}"),
            Call::Arrange(list) => write!(f, "arrange as{}", Events(list)),
            Call::Rank => write!(f, "rank"),
            Call::Close(bytes) => write!(f, "close with a place of {bytes} bytes"),
        }
    }
}

// A refused call, by the number that refused it.
#[derive(Drop)]
pub struct ShownAnswer(pub Result<(), Rejection>);

impl Display for ShownAnswer {
    fn fmt<W: fmt::Write>(&self, f: &mut fmt::Formatter<W>) -> fmt::Result {
        match self.0 {
            Ok(()) => write!(f, "accepted"),
            Err(why) => write!(f, "refused by {}", why.number()),
        }
    }
}

// What a question is told, or that it is refused.
#[derive(Drop)]
struct Told<T>(Result<T, Refusal>);

impl<T: Display> Display for Told<T> {
    fn fmt<W: fmt::Write>(&self, f: &mut fmt::Formatter<W>) -> fmt::Result {
        match &self.0 {
            Ok(told) => write!(f, "{told}"),
            Err(_) => write!(f, "refused"),
        }
    }
}

// A distance or an end of a window, which may be missing.
#[derive(Drop)]
struct End<K>(Option<K>);

impl<K: Display> Display for End<K> {
    fn fmt<W: fmt::Write>(&self, f: &mut fmt::Formatter<W>) -> fmt::Result {
        match &self.0 {
            None => write!(f, "-"),
            Some(bound) => write!(f, "{bound}"),
        }
    }
}

#[derive(Drop)]
struct Window<K> {
    low: End<K>,
    high: End<K>,
}

impl<K: Display> Display for Window<K> {
    fn fmt<W: fmt::Write>(&self, f: &mut fmt::Formatter<W>) -> fmt::Result {
        let Window { low, high } = self;
        write!(f, "{low} {high}")
    }
}

#[derive(Drop)]
pub struct ShownAsked<K>(pub Asked<K>);

impl<K: Kind + Display> Display for ShownAsked<K> {
    fn fmt<W: fmt::Write>(&self, f: &mut fmt::Formatter<W>) -> fmt::Result {
        let asked = self.0;
        let distance = Told(asked.distance.map(End));
        let window = Told(
            asked.window.map(|(low, high)| Window {
                low: End(low),
                high: End(high),
            }),
        );
        write!(f, "distance {distance}, window {window}")
    }
}

// The answer to a close, with the loop that the place holds after a contradiction.
#[derive(Drop)]
pub struct ShownClosing<'p>(pub Result<(), Refusal>, pub &'p [u8]);

impl Display for ShownClosing<'_> {
    fn fmt<W: fmt::Write>(&self, f: &mut fmt::Formatter<W>) -> fmt::Result {
        let ShownClosing(closing, place) = self;
        match closing {
            Ok(()) => write!(f, "closed"),
            Err(Refusal::Contradiction(events)) => {
                let shown = place.get(..*events).unwrap_or(place);
                write!(f, "no run can keep the loop{}", Events(shown))
            }
            Err(_) => write!(f, "refused"),
        }
    }
}
