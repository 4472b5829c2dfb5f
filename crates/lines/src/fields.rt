// What is put at the end of a line's text.
// Not by `write!`: its contract leaves open whether it succeeds where there is room, and a line that fits can't fail.
ghost use Rattle.std.specs.Prelude.{◌≡◌, ◌+◌, ◌*◌, ◌≤◌, ◌++◌, length};
ghost use Rattle.lines.specs.Fields.{end_text, numbered, longest_line};

use super::line::Text;
use itoa::{Buffer, Integer};

pub fn push_number<I: Integer>(text: &mut Text, number: I)
    requires { length text.old.bytes + I.MAX_STR_LEN ≤ longest_line }
    ensures text { text.new.bytes ≡ text.old.bytes ++ I.text number }
    ensures len { length text.new.bytes ≤ length text.old.bytes + I.MAX_STR_LEN }
{
    let mut digits = Buffer::new();
    text.push_str(digits.format(number));
}

// The end of a window, at most twenty bytes: a dash where it is open.
pub fn push_end(text: &mut Text, end: Option<i64>)
    requires { length text.old.bytes + 20 ≤ longest_line }
    ensures text { text.new.bytes ≡ text.old.bytes ++ end_text end }
    ensures len { length text.new.bytes ≤ length text.old.bytes + 20 }
{
    match end {
        Some(number) => push_number(text, number),
        None => text.push_str("-"),
    }
}

// Numbers of at most three digits, each after a space.
pub fn push_numbers(text: &mut Text, numbers: &[u8])
    requires { length text.old.bytes + 4 * length numbers.now ≤ longest_line }
    ensures text { text.new.bytes ≡ text.old.bytes ++ numbered numbers.now }
    ensures len { length text.new.bytes ≤ length text.old.bytes + 4 * length numbers.now }
{
    for number in numbers {
        text.push_str(" ");
        push_number(text, *number);
    }
}
