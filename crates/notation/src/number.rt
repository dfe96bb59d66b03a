// Numbers in decimal digits, within a range.
ghost use Rattle.std.specs.Prelude.{◌≡◌, ℕ, ◌+◌, ◌-◌, ◌*◌, ◌<◌, ◌≤◌, ℤ, MatchOption, MatchResult, IfErr, FitsSigned};
ghost use Rattle.std.specs.Int.{w32, IsInRange};
ghost use Rattle.notation.specs.Numbers.{DigitsError, Signed, SignedError, Unsigned};

use crate::error::{Shown, WordError};

// The number with one more digit, if it is at most `most`.
fn with_digit(number: u64, digit: u8, most: u64) -> Option<u64>
    requires { IsInRange 48 57 digit }
    ensures { MatchOption result (most < number * 10 + (digit - 48)) (λ n. (n ≤ most) × (n ≡ number * 10 + (digit - 48))) }
{
    let grown = number
        .checked_mul(10)?
        .checked_add(u64::from(digit - b'0'))?;
    (grown <= most).then_some(grown)
}

// The number that digits write, if it is at most `most`; so many bytes of the word stand before them.
pub fn read_digits(digits: &[u8], before: usize, most: u64) -> Result<u64, WordError>
    ensures number { MatchResult result (λ n. (n ≤ most) × Unsigned digits.now n) (λ _. (n : ℕ) → n ≤ most → Unsigned digits.now n → ⊥) }
    ensures fault { IfErr result (DigitsError digits.now before most) }
{
    if digits.is_empty() {
        return Err(if before == 0 {
            WordError::Missing
        } else {
            WordError::NoDigits
        });
    }
    let mut number = 0;
    for (at, &byte) in digits.iter().enumerate() {
        if !byte.is_ascii_digit() {
            return Err(WordError::NoDigit {
                place: before.saturating_add(at + 1),
                found: Shown(byte),
            });
        }
        number = with_digit(number, byte, most).ok_or(WordError::OutOfRange)?;
    }
    Ok(number)
}

// A signed number of 32 bits.
pub fn read_signed(word: &[u8]) -> Result<i32, WordError>
    ensures number { MatchResult result (λ z. Signed word.now z) (λ _. (z : ℤ) → FitsSigned w32 z → Signed word.now z → ⊥) }
    ensures fault { IfErr result (SignedError word.now) }
{
    match word.strip_prefix(b"-") {
        Some(digits) => {
            let size = read_digits(digits, 1, 2147483648)?;
            Ok(-(size as i64) as i32)
        }
        None => {
            let size = read_digits(word, 0, 2147483647)?;
            Ok(size as i32)
        }
    }
}
