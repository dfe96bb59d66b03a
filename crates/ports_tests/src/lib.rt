// The ports at the edges of what they accept, and a strip in the hands of another crate.
#![tactic(auto)]

ghost use Rattle.std.specs.Prelude.{◌≡◌, [], ◌∷◌, length, if◌then◌else◌, nat_le};
ghost use Rattle.ports.specs.Kept.{overlay};
ghost use Rattle.ports.specs.Lines.{line_length, text_of};
ghost use Rattle.ports.specs.Strips.{Put};

use ports::strip::{Strip, StripFull};
use ports::text::TextStrip;
use vocabulary::value::Plain;

pub mod own;
#[cfg(test)]
mod tests;

// Puts a value on any strip.
pub fn say<S: Strip>(strip: &mut S, value: Plain) -> Result<(), StripFull>
    ensures answer { Put (S.Strip.price value) value (S.Strip.held strip.old) (S.Strip.space strip.old) (S.Strip.held strip.new) (S.Strip.space strip.new) result }
    ensures kept { S.Strip.keeps strip.old strip.new }
{
    strip.put(value)
}

// Puts a value as text at the start of the caller's bytes, if there is room.
pub fn say_in_text(bytes: &mut [u8], value: Plain) -> Result<(), StripFull>
    ensures { bytes.new ≡ overlay (text_of (if nat_le (line_length value) (length bytes.old) then value ∷ [] else [])) bytes.old }
{
    let mut strip = TextStrip::new(bytes);
    say(&mut strip, value)
}
