ghost use Rattle.std.specs.Prelude.{◌≡◌, ◌+◌, ◌≤◌, length, drop, decimal, refl};
ghost use Rattle.vocabulary.specs.declared.value.Plain.TheVariants.{Number, Truth};
ghost use Rattle.ports.specs.Laws.{line_costs};
ghost use Rattle.ports.specs.Lines.{line_length, line_of, text_of, values_in};

use crate::lent::{Element, LentStrip, fill};
use crate::strip::StripFull;
use vocabulary::value::Plain;

// Writes the digits of `number` at the end of `buffer`, and answers where they begin. By hand, since no clause of `write!`
// says when it fails.
fn spell(number: u32, buffer: &mut [u8]) -> usize
    requires { length (decimal number) ≤ length buffer.old }
    ensures text { drop result buffer.new ≡ decimal number }
    ensures size { result + length (decimal number) ≡ length buffer.old }
{
    let at = buffer.len() - 1;
    buffer[at] = b'0' + (number % 10) as u8;
    if number < 10 {
        at
    } else {
        spell(number / 10, &mut buffer[..at])
    }
}

// Writes the line of a number at the end of `buffer`, which has room for the longest, and lends it.
fn number_line(number: i32, buffer: &mut [u8; 12]) -> &[u8]
    ensures { result.now ≡ line_of (Number number) }
{
    buffer[11] = b'\n';
    let at = spell(number.unsigned_abs(), &mut buffer[..11]);
    if number < 0 {
        buffer[at - 1] = b'-';
        &buffer[at - 1..]
    } else {
        &buffer[at..]
    }
}

fn truth_line(truth: bool) -> &'static [u8]
    ensures { result.now ≡ line_of (Truth truth) }
{
    if truth { b"true\n" } else { b"false\n" }
}

impl Element for u8 {
    ghost written = { text_of };

    ghost said = { values_in };

    ghost nothing_written = { refl };

    ghost nothing_said = { refl };

    ghost price = { line_length };

    ghost costs = { line_costs };

    fn write(value: Plain, free: &mut [u8]) -> Result<usize, StripFull> {
        match value {
            Plain::Number(number) => fill(number_line(number, &mut [0; 12]), free),
            Plain::Truth(truth) => fill(truth_line(truth), free),
        }
    }
}

// A strip that fills bytes of the caller's memory with lines of text.
pub type TextStrip<'a> = LentStrip<'a, u8>;
