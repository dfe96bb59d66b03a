// Answers and what is left as lines of text, in numbers, for scripts. All of it prints piece by piece, so that none of the text has to
// be held.
ghost use Rattle.std.specs.Prelude.{◌≡◌, ℕ, List, true, [], ◌∷◌, ◌++◌, IfOk, if◌then◌else◌, Some, string_bytes, OnOk};
ghost use Rattle.std.specs.List.{flat_map};
ghost use Rattle.ports.specs.Lines.{word_of};
ghost use Rattle.ports.specs.Records.{value_of};
ghost use Rattle.planned.specs.Answers.{answer_text, answers_text};
ghost use Rattle.planned.specs.Leaves.{items_text, records_text, byte_text, lines_text, bytes_text, filled_text, memory_text, left_text};
ghost use Rattle.planned.specs.Printouts.{printout_text};

use crate::carry::{Filled, Left};
use notation::hex::Hex;
use notation::trace::AsWord;
use ports::records::OutRecord;
use session::Answer;
use std::alloc::{AllocError, Global};
use std::fmt;
use vocabulary::item::Item;
use vocabulary::refusal::Refusal;

// An answer in numbers.
#[derive(Clone, Copy)]
pub struct InNumbers(pub Answer);

impl fmt::Display for InNumbers {
    ghost output = { λ a. Some (answer_text a.0) };

    fn fmt<W: fmt::Write>(&self, f: &mut fmt::Formatter<W>) -> fmt::Result {
        match self.0 {
            Answer::Done => f.write_str("done"),
            Answer::Told(report) => {
                let ended = u8::from(report.ended());
                let end = report.end();
                let node = report.node();
                let code = report.code();
                let steps = report.steps;
                write!(f, "status {ended} {end} {node} {code} {steps}")
            }
            Answer::Refused(refusal) => {
                let number = refusal.cause.number();
                let node = refusal.node;
                write!(f, "refused {number} {node}")
            }
        }
    }
}

// The value that a record says.
#[derive(Clone, Copy)]
pub struct AsValue(pub OutRecord);

impl fmt::Display for AsValue {
    ghost output = { λ r. Some (word_of (value_of r.0)) };

    fn fmt<W: fmt::Write>(&self, f: &mut fmt::Formatter<W>) -> fmt::Result {
        let number = self.0.number;
        match self.0.sort {
            0 => write!(f, "{number}"),
            _ if number == 0 => f.write_str("false"),
            _ => f.write_str("true"),
        }
    }
}

// Writes each of `items` as `shown` shows it, between these texts.
pub fn push_each<T: Copy, D: fmt::Display + Drop, F: Fn(T) -> D>(
    text: &mut String,
    items: &[T],
    before: &str,
    shown: F,
    after: &str,
) -> Result<(), AllocError>
    requires { F.IsAlwaysCallable shown }
    ensures { (piece : T → List ℕ) → ((a : T) (d : D) → F.post shown a d → (word : List ℕ) × (D.output d ≡ Some word) × (piece a ≡ before.now ++ (word ++ after.now))) → OnOk result (string_bytes text.new ≡ string_bytes text.old ++ flat_map piece items.now) }
{
    for item in items {
        let word = shown(*item);
        write!(text, "{before}{word}{after}")?;
    }
    Ok(())
}

// The answers of a session in numbers, a line each.
pub fn answers_in_numbers(heap: Global, answers: &[Answer]) -> Result<String, AllocError>
    ensures { IfOk result (λ text. string_bytes text ≡ answers_text answers.now) }
{
    let mut text = String::new(heap);
    push_each(&mut text, answers, "", InNumbers, "\n")?;
    Ok(text)
}

// The same as sentences. No contract: a sentence states no output of its own, so there is no text to speak of.
pub fn answers_in_words(heap: Global, answers: &[Answer]) -> Result<String, AllocError> {
    let mut text = String::new(heap);
    push_each(&mut text, answers, "", |answer: Answer| answer, "\n")?;
    Ok(text)
}

// Items that print as their words, each behind a blank.
#[derive(Clone, Copy)]
struct Words<'a>(&'a [Item]);

impl fmt::Display for Words<'_> {
    ghost output = { λ w. Some (items_text w.0.now) };

    fn fmt<W: fmt::Write>(&self, f: &mut fmt::Formatter<W>) -> fmt::Result {
        for item in self.0 {
            let word = AsWord(*item);
            write!(f, " {word}")?;
        }
        Ok(())
    }
}

// The same, added to a text.
pub fn push_items(text: &mut String, items: &[Item]) -> Result<(), AllocError>
    ensures { OnOk result (string_bytes text.new ≡ string_bytes text.old ++ items_text items.now) }
{
    let words = Words(items);
    write!(text, "{words}")
}

// Records that print as their values, each behind a blank.
#[derive(Clone, Copy)]
struct Values<'a>(&'a [OutRecord]);

impl fmt::Display for Values<'_> {
    ghost output = { λ v. Some (records_text v.0.now) };

    fn fmt<W: fmt::Write>(&self, f: &mut fmt::Formatter<W>) -> fmt::Result {
        for out in self.0 {
            let value = AsValue(*out);
            write!(f, " {value}")?;
        }
        Ok(())
    }
}

// The lines of a text strip go byte by byte with `begins`, as `lines_text` does. Over `split_inclusive` the loop's step didn't close:
// that a line cut off the front gives its part of `lines_text`.

// What stands before a byte of a line: a blank before the first.
fn before(begins: bool) -> &'static str
    ensures { result.now ≡ (if begins then 32 ∷ [] else []) }
{
    if begins { " " } else { "" }
}

// A byte of a line, and nothing for the byte that ends it.
#[derive(Clone, Copy)]
struct LineByte {
    begins: bool,
    byte: u8,
}

impl fmt::Display for LineByte {
    ghost output = { λ b. Some (byte_text b.begins b.byte) };

    fn fmt<W: fmt::Write>(&self, f: &mut fmt::Formatter<W>) -> fmt::Result {
        let byte = self.byte;
        f.write_str(before(self.begins))?;
        if byte != b'\n' {
            f.write_char(char::from(byte))?;
        }
        Ok(())
    }
}

// The lines of a text strip, each behind a blank.
#[derive(Clone, Copy)]
struct Lines<'a>(&'a [u8]);

impl fmt::Display for Lines<'_> {
    ghost output = { λ l. Some (lines_text true l.0.now) };

    fn fmt<W: fmt::Write>(&self, f: &mut fmt::Formatter<W>) -> fmt::Result {
        let mut begins = true;
        for &byte in self.0 {
            let piece = LineByte { begins, byte };
            write!(f, "{piece}")?;
            begins = byte == b'\n';
        }
        Ok(())
    }
}

// A line of bytes in hex digits, behind a word that says what they are.
#[derive(Clone, Copy)]
pub struct BytesLine<'a> {
    pub word: &'a str,
    pub bytes: &'a [u8],
}

impl fmt::Display for BytesLine<'_> {
    ghost output = { λ l. Some (bytes_text l.word.now l.bytes.now) };

    fn fmt<W: fmt::Write>(&self, f: &mut fmt::Formatter<W>) -> fmt::Result {
        let word = self.word;
        if self.bytes.is_empty() {
            return writeln!(f, "{word}");
        }
        let digits = Hex(self.bytes);
        writeln!(f, "{word} {digits}")
    }
}

// The same, added to a text.
pub fn push_bytes(text: &mut String, word: &str, bytes: &[u8]) -> Result<(), AllocError>
    ensures { OnOk result (string_bytes text.new ≡ string_bytes text.old ++ bytes_text word.now bytes.now) }
{
    let line = BytesLine { word, bytes };
    write!(text, "{line}")
}

// The values that a strip holds, each behind a blank.
#[derive(Clone, Copy)]
struct Held<'a>(&'a Filled);

impl fmt::Display for Held<'_> {
    ghost output = { λ h. Some (filled_text h.0.now) };

    fn fmt<W: fmt::Write>(&self, f: &mut fmt::Formatter<W>) -> fmt::Result {
        match self.0 {
            Filled::Records(records) => {
                let values = Values(records.as_slice());
                write!(f, "{values}")
            }
            Filled::Text(bytes) => {
                let lines = Lines(bytes.as_slice());
                write!(f, "{lines}")
            }
        }
    }
}

// The line of the bytes that a text strip holds.
#[derive(Clone, Copy)]
struct Memory<'a>(&'a Filled);

impl fmt::Display for Memory<'_> {
    ghost output = { λ m. Some (memory_text m.0.now) };

    fn fmt<W: fmt::Write>(&self, f: &mut fmt::Formatter<W>) -> fmt::Result {
        match self.0 {
            Filled::Records(_) => Ok(()),
            Filled::Text(bytes) => {
                let line = BytesLine {
                    word: "text",
                    bytes: bytes.as_slice(),
                };
                write!(f, "{line}")
            }
        }
    }
}

// What is left, in three lines, and for a text strip a fourth with its bytes.
impl fmt::Display for Left {
    ghost output = { λ left. Some (left_text left) };

    fn fmt<W: fmt::Write>(&self, f: &mut fmt::Formatter<W>) -> fmt::Result {
        let items = Words(self.items.as_slice());
        let values = Held(&self.filled);
        let space = self.space;
        let memory = Memory(&self.filled);
        write!(f, "feed{items}\nheld{values}\nspace {space}\n{memory}")
    }
}

// The same as a text.
pub fn left_text(heap: Global, left: &Left) -> Result<String, AllocError>
    ensures { IfOk result (λ text. string_bytes text ≡ left_text left.now) }
{
    format!(in heap; "{left}")
}

// What a session prints: its answers as they are shown, a line each, and then what it leaves; or the refusal of its ramp alone. It
// holds what is shown, and none of the text.
#[derive(Drop)]
pub enum Printout<D> {
    Carried { answers: Vec<D>, left: Left },
    Refused(Refusal),
}

impl<D: fmt::Display> fmt::Display for Printout<D> {
    ghost output = { λ p. printout_text D.output p };

    fn fmt<W: fmt::Write>(&self, f: &mut fmt::Formatter<W>) -> fmt::Result {
        match self {
            Printout::Carried { answers, left } => {
                for answer in answers.as_slice() {
                    writeln!(f, "{answer}")?;
                }
                write!(f, "{left}")
            }
            Printout::Refused(refusal) => {
                let answer = InNumbers(Answer::Refused(*refusal));
                writeln!(f, "{answer}")
            }
        }
    }
}
