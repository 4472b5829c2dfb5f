// The lines of a listing.
ghost use Rattle.std.specs.Prelude.{◌≡◌, ◌≤◌, ◌&&◌, length, nat_le};
ghost use Rattle.lines.specs.Fields.{counts_text, window_text, contradiction_text, fault_text, most_shown, longest_line};
ghost use Rattle.lines.specs.Placed.{fits_in, told, laid};

use super::fields::{push_end, push_number, push_numbers};
use super::line::{Line, Text};

// The most events of a contradiction that a line shows.
const MOST_SHOWN: usize = 32;

const LINE_END: &str = "\n";

// The counts of a close.
#[derive(Drop)]
pub struct CountsLine {
    pub width: u32,
    pub fill: u32,
    pub looks: u32,
}

// A pair of events with both ends of its window.
#[derive(Drop)]
pub struct WindowLine {
    pub from: u8,
    pub to: u8,
    pub low: Option<i64>,
    pub high: Option<i64>,
}

// A contradiction with the events of its loop.
#[derive(Drop)]
struct ContradictionLine<'e> {
    events: &'e [u8],
    ghost few: { length events.now ≤ most_shown },
}

// A fault of a sheet.
#[derive(Drop)]
pub struct FaultLine {
    pub number: u8,
    pub layer: u8,
    pub offset: usize,
}

impl Line for CountsLine {
    ghost text = { λ l. counts_text l.width l.fill l.looks };

    ghost most = { 80 };

    #[tactic(auto, unfolding(crate::specs::Fields::counts_text, crate::specs::Fields::line))]
    fn text(&self) -> Text {
        let mut text = Text::new();
        text.push_str("width ");
        push_number(&mut text, self.width);
        text.push_str(" fill ");
        push_number(&mut text, self.fill);
        text.push_str(" looks ");
        push_number(&mut text, self.looks);
        text.push_str(LINE_END);
        text
    }
}

impl Line for WindowLine {
    ghost text = { λ l. window_text l.from l.to l.low l.high };

    ghost most = { 50 };

    #[tactic(auto, unfolding(crate::specs::Fields::window_text, crate::specs::Fields::line))]
    fn text(&self) -> Text {
        let mut text = Text::new();
        push_number(&mut text, self.from);
        text.push_str(" ");
        push_number(&mut text, self.to);
        text.push_str(" ");
        push_end(&mut text, self.low);
        text.push_str(" ");
        push_end(&mut text, self.high);
        text.push_str(LINE_END);
        text
    }
}

impl Line for ContradictionLine<'_> {
    ghost text = { λ l. contradiction_text l.events.now };

    ghost most = { longest_line };

    fn text(&self) -> Text {
        let mut text = Text::new();
        text.push_str("contradiction");
        push_numbers(&mut text, self.events);
        text.push_str(LINE_END);
        text
    }
}

impl Line for FaultLine {
    ghost text = { λ l. fault_text l.number l.layer l.offset };

    ghost most = { 44 };

    #[tactic(auto, unfolding(crate::specs::Fields::fault_text, crate::specs::Fields::line))]
    fn text(&self) -> Text {
        let mut text = Text::new();
        text.push_str("fault ");
        push_number(&mut text, self.number);
        text.push_str(" layer ");
        push_number(&mut text, self.layer);
        text.push_str(" at ");
        push_number(&mut text, self.offset);
        text.push_str(LINE_END);
        text
    }
}

// A contradiction with the events of its loop; more than MOST_SHOWN are not written.
pub fn write_contradiction(place: &mut [u8], events: &[u8]) -> Option<usize>
    ensures answer { result ≡ told (nat_le (length events.now) most_shown && fits_in (contradiction_text events.now) place.old) (contradiction_text events.now) }
    ensures place { place.new ≡ laid (nat_le (length events.now) most_shown && fits_in (contradiction_text events.now) place.old) (contradiction_text events.now) place.old }
    ensures short { length events.now ≤ most_shown → length (contradiction_text events.now) ≤ longest_line }
{
    if events.len() > MOST_SHOWN {
        return None;
    }
    ContradictionLine { events }.write(place)
}
