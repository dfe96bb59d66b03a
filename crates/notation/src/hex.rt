// Bytes in hex digits, two a byte, and `-` for no bytes.
ghost use Rattle.std.specs.Prelude.{◌≡◌, ℕ, ◌^◌, ◌<◌, ◌⊎◌, List, [], ◌∷◌, IfOk, IfErr, string_bytes, MatchOption, MatchResult, ◌≢◌, Some};
ghost use Rattle.notation.specs.declared.error.ReadError.TheVariants.{Memory};
ghost use Rattle.notation.specs.declared.error.WordError.TheVariants.{NoHexDigit};
ghost use Rattle.notation.specs.Errors.{Misses};
ghost use Rattle.notation.specs.Hex.{Bytes, FirstNoDigit, hex_digit, hex_digits, hex_text, HexError};

use crate::error::{ReadError, Shown, Wanted, WordError};
use std::alloc::{AllocError, Global};
use std::fmt;

// The value of a digit. It is no `to_digit` of std, which takes upper case too.
fn digit_value(byte: u8) -> Option<u8>
    ensures { MatchOption result ((d : ℕ) → d < 16 → hex_digit d ≢ byte) (λ d. (d < 16) × (hex_digit d ≡ byte)) }
{
    match byte {
        b'0'..=b'9' => Some(byte - b'0'),
        b'a'..=b'f' => Some(byte - b'a' + 10),
        _ => None,
    }
}

// The byte of two digits, behind so many bytes of the word.
fn read_byte(pair: &[u8; 2], before: usize) -> Result<u8, WordError>
    requires { before < 2 ^ 63 }
    ensures byte { MatchResult result (λ b. pair.now ≡ hex_digits (b ∷ [])) (λ _. (b : ℕ) → b < 256 → pair.now ≢ hex_digits (b ∷ [])) }
    ensures fault { IfErr result (λ e. (place : ℕ) × (found : ℕ) × (e ≡ NoHexDigit place record { 0 = found }) × FirstNoDigit pair.now before place found) }
{
    let [high, low] = *pair;
    let Some(h) = digit_value(high) else {
        return Err(WordError::NoHexDigit {
            place: before + 1,
            found: Shown(high),
        });
    };
    let Some(l) = digit_value(low) else {
        return Err(WordError::NoHexDigit {
            place: before + 2,
            found: Shown(low),
        });
    };
    Ok(h * 16 + l)
}

// The bytes of digits, pair by pair.
fn read_pairs(heap: Global, word: &[u8], wanted: Wanted) -> Result<Vec<u8>, ReadError>
    ensures bytes { MatchResult result (λ bytes. word.now ≡ hex_digits bytes.items) (λ e. (e ≢ Memory) → (bytes : List ℕ) → Bytes bytes → word.now ≢ hex_digits bytes) }
    ensures fault { IfErr result (λ e. (e ≡ Memory) ⊎ Misses wanted (HexError word.now) e) }
{
    let (pairs, alone) = word.as_chunks::<2>();
    if !alone.is_empty() {
        return Err(wanted.missed(WordError::OddDigits));
    }
    let mut bytes = Vec::new(heap);
    for (k, pair) in pairs.iter().enumerate() {
        let byte = read_byte(pair, 2 * k).map_err(|error| wanted.missed(error))?;
        bytes.push(byte)?;
    }
    Ok(bytes)
}

// The bytes of a word, which is the text of just these; refused where it is the text of no bytes.
pub fn read_hex(heap: Global, word: &[u8], wanted: Wanted) -> Result<Vec<u8>, ReadError>
    ensures bytes { MatchResult result (λ bytes. word.now ≡ hex_text bytes.items) (λ e. (e ≢ Memory) → (bytes : List ℕ) → Bytes bytes → word.now ≢ hex_text bytes) }
    ensures fault { IfErr result (λ e. (e ≡ Memory) ⊎ Misses wanted (HexError word.now) e) }
{
    match word {
        [] => Err(wanted.missed(WordError::Missing)),
        b"-" => Ok(Vec::new(heap)),
        _ => read_pairs(heap, word, wanted),
    }
}

fn digit_char(digit: u8) -> char
    requires { digit < 16 }
    ensures { result ≡ hex_digit digit }
{
    if digit < 10 {
        char::from(b'0' + digit)
    } else {
        char::from(b'a' + (digit - 10))
    }
}

// Bytes that print as the word that gives them. Digit by digit: `{byte:02x}` takes several times as long.
#[derive(Clone, Copy)]
pub struct Hex<'a>(pub &'a [u8]);

impl fmt::Display for Hex<'_> {
    ghost output = { λ h. Some (hex_text h.0.now) };

    fn fmt<W: fmt::Write>(&self, f: &mut fmt::Formatter<W>) -> fmt::Result {
        if self.0.is_empty() {
            return f.write_str("-");
        }
        for &byte in self.0 {
            f.write_char(digit_char(byte / 16))?;
            f.write_char(digit_char(byte % 16))?;
        }
        Ok(())
    }
}

// The word that gives these bytes.
pub fn hex_text(heap: Global, bytes: &[u8]) -> Result<String, AllocError>
    ensures { IfOk result (λ text. string_bytes text ≡ hex_text bytes.now) }
{
    let word = Hex(bytes);
    format!(in heap; "{word}")
}
