// A line of text, written at the front of a place.
ghost use Rattle.std.specs.Prelude.{◌≡◌, ℕ, ◌≤◌, List, length};
ghost use Rattle.lines.specs.Placed.{fits_in, told, laid};

use arrayvec::ArrayString;

// The longest line: a word of 13 bytes, 32 events of three digits, each after a space, and the line's end.
pub const LONGEST_LINE: usize = 142;

// In fixed memory: this part has no heap.
pub type Text = ArrayString<LONGEST_LINE>;

// What can be written as a line.
pub trait Line {
    // The bytes of the line, and the most that there can be.
    ghost text: { Self → List ℕ };

    ghost most: { ℕ };

    fn text(&self) -> Text
        ensures text { result.bytes ≡ text self.now }
        ensures short { length result.bytes ≤ most };

    // Writes the line at the front of the place: its length is told, or none where it does not fit.
    final fn write(&self, place: &mut [u8]) -> Option<usize>
        ensures answer { result ≡ told (fits_in (text self.now) place.old) (text self.now) }
        ensures place { place.new ≡ laid (fits_in (text self.now) place.old) (text self.now) place.old }
        ensures short { length (text self.now) ≤ most }
    {
        let text = self.text();
        let len = text.len();
        if place.len() < len {
            return None;
        }
        place[..len].copy_from_slice(text.as_str().as_bytes());
        Some(len)
    }
}
