// A line, read and written.
ghost use Rattle.std.specs.Prelude.{◌≡◌, ◌↔◌, IfErr, IfOk, string_bytes, [], None};
ghost use Rattle.notation.specs.Errors.{LineError};
ghost use Rattle.notation.specs.Lines.{Reads, line_text, said};
ghost use Rattle.notation.specs.Words.{Words, word, behind};

use crate::error::ReadError;
use crate::plan::Line;
use crate::reading::read_behind;
use crate::word::next_word;
use std::alloc::{AllocError, Global};

// What a line plans; a line without words plans nothing.
pub fn read_line(heap: Global, line: &[u8]) -> Result<Option<Line>, ReadError>
    ensures said { Reads line.now result }
    ensures fault { IfErr result (LineError (word line.now) (behind line.now)) }
    ensures nothing { result ≡ Ok None ↔ Words line.now [] }
{
    let (verb, rest) = next_word(line);
    if verb.is_empty() {
        return Ok(None);
    }
    read_behind(heap, verb, rest).map(Some)
}

// The text of a line that plans this; the line without words plans nothing.
pub fn line_text(heap: Global, line: &Option<Line>) -> Result<String, AllocError>
    ensures { IfOk result (λ text. string_bytes text ≡ line_text (said line.now)) }
{
    match line {
        Some(line) => format!(in heap; "{line}"),
        None => Ok(String::new(heap)),
    }
}
