// The items of a trace, each a word: a reading, or a fault as `fault:3`.
ghost use Rattle.std.specs.Prelude.{◌≡◌, ℕ, List, MatchResult, IfErr, ◌≢◌, Some};
ghost use Rattle.std.specs.List.{AllByRecursion};
ghost use Rattle.vocabulary.specs.declared.item.Item.{Item};
ghost use Rattle.ports.specs.Traces.{item_of, items_of};
ghost use Rattle.notation.specs.declared.error.ReadError.TheVariants.{Memory};
ghost use Rattle.notation.specs.Errors.{ItemError, TraceError};
ghost use Rattle.notation.specs.Lines.{AreItems, IsItem, item_word, ItemRange};
ghost use Rattle.notation.specs.Words.{Words};

use crate::error::{ReadError, Wanted, WordError};
use crate::number::{read_digits, read_signed};
use crate::word::next_word;
use ports::trace::Record;
use std::alloc::Global;
use std::fmt;
use vocabulary::item::Item;

// The record of an item, whose number in the trace is for messages.
fn read_item(word: &[u8], number: usize) -> Result<Record, ReadError>
    ensures item { MatchResult result (λ x. IsItem word.now (item_of x)) (λ _. (item : Item) → ItemRange item → IsItem word.now item → ⊥) }
    ensures fault { IfErr result (ItemError word.now number) }
{
    let Some(digits) = word.strip_prefix(b"fault:") else {
        let reading = read_signed(word).map_err(|error| Wanted::Reading(number).missed(error))?;
        return Ok(Record { code: 0, reading });
    };
    let wanted = Wanted::FaultCode(number);
    match read_digits(digits, 6, 255) {
        Ok(0) => Err(wanted.missed(WordError::OutOfRange)),
        Ok(code) => Ok(Record {
            code: code as u8,
            reading: 0,
        }),
        Err(error) => Err(wanted.missed(error)),
    }
}

// The records of a trace, an item a word.
pub fn read_trace(heap: Global, line: &[u8]) -> Result<Vec<Record>, ReadError>
    ensures items { MatchResult result (λ records. (ws : List (List ℕ)) × Words line.now ws × AreItems ws (items_of records.items)) (λ e. (e ≢ Memory) → (items : List Item) → AllByRecursion ItemRange items → (ws : List (List ℕ)) → Words line.now ws → AreItems ws items → ⊥) }
    ensures fault { IfErr result (TraceError line.now) }
{
    let mut records = Vec::new(heap);
    let mut left = line;
    loop {
        let (word, more) = next_word(left);
        if word.is_empty() {
            return Ok(records);
        }
        let record = read_item(word, records.len().saturating_add(1))?;
        records.push(record)?;
        left = more;
    }
}

// An item that prints as its word.
#[derive(Clone, Copy)]
pub struct AsWord(pub Item);

impl fmt::Display for AsWord {
    ghost output = { λ i. Some (item_word i.0) };

    fn fmt<W: fmt::Write>(&self, f: &mut fmt::Formatter<W>) -> fmt::Result {
        match self.0 {
            Item::Reading(reading) => write!(f, "{reading}"),
            Item::Fault(fault) => {
                let code = fault.code;
                write!(f, "fault:{code}")
            }
        }
    }
}
