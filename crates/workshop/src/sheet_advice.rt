// What a refusal of a sheet is about.
use crate::advice::table_advice;
use sequencer::state::Sequencer;
use sheet::layout::{Counts, ENTRY, Entry, HEADER};
use sheet::open::{Header, open_header};
use std::alloc::{AllocError, Global};
use vocabulary::refusal::{Cause, Refusal};

// A number of the header: what it is called, what it is, and what it has to be.
#[derive(Clone, Copy)]
struct Number {
    called: &'static str,
    is: usize,
    wanted: usize,
}

impl Number {
    // A field of the header.
    fn of(called: &'static str, is: u16, wanted: usize) -> Number {
        Number {
            called,
            is: usize::from(is),
            wanted,
        }
    }
}

// The counts that a header gives, right or not: sheet's own `frame` gives right ones alone.
fn counts_in(header: Header) -> Counts {
    Counts {
        nodes: header.nodes,
        words: header.words,
    }
}

fn numbers(header: Header, size: usize) -> [Number; 7] {
    let counts = counts_in(header);
    let total = counts.total();
    [
        Number::of("field 1 (the version)", header.version, 1),
        Number::of("field 4 (the offset of the nodes)", header.nodes_at, HEADER),
        Number::of(
            "field 5 (the offset of the code)",
            header.code_at,
            counts.code_at(),
        ),
        Number::of("field 6 (the length of the sheet)", header.total, total),
        Number::of("field 7", header.spare, 0),
        Number::of("field 8", header.last, 0),
        Number {
            called: "the length of the file",
            is: size,
            wanted: total,
        },
    ]
}

// None where no number of the header is at fault.
fn header_advice(heap: Global, sheet: &[u8]) -> Result<Option<String>, AllocError> {
    let size = sheet.len();
    let Some(header) = open_header(sheet) else {
        let text = format!(in heap; "it has {size} bytes; the header alone has 16")?;
        return Ok(Some(text));
    };
    if header.version == 1 && header.code_at == 0 && header.total == 0 {
        let text = format!(in heap;
            "it is a half sheet, started and not finished; write it anew from its table"
        )?;
        return Ok(Some(text));
    }
    let n = header.nodes;
    let m = header.words;
    for Number { called, is, wanted } in numbers(header, size) {
        if is != wanted {
            let text = format!(in heap;
                "{called} is {is}; with {n} nodes and {m} code words it must be {wanted}"
            )?;
            return Ok(Some(text));
        }
    }
    Ok(None)
}

// The nodes of a sheet whose header is in order.
fn table_in(sheet: &[u8]) -> &[u8] {
    let Some(header) = open_header(sheet) else {
        return sheet;
    };
    let code_at = counts_in(header).code_at();
    if code_at <= sheet.len() {
        &sheet[HEADER..code_at]
    } else {
        sheet
    }
}

// On the first code word that is not the translation's; None where the nodes are not accepted.
fn code_advice(heap: Global, sheet: &[u8]) -> Result<Option<String>, AllocError> {
    let table = table_in(sheet);
    let mut sequencer = Sequencer::new();
    if sequencer.load(table).is_err() {
        return Ok(None);
    }
    let (_, code) = sheet
        .split_at_checked(HEADER + table.len())
        .unwrap_or((&[], sheet));
    let entries = code.chunks_exact(ENTRY);
    for ((position, word), entry) in sequencer.code().iter().enumerate().zip(entries) {
        let name = word.instruction.name();
        let operand = word.instruction.operand();
        let node = word.node;
        if entry != word.to_bytes().as_slice() {
            let text = format!(in heap;
                "code word {position} is not {name} {operand} at node {node}, which the tree has there; the sheet was altered, or is not ours"
            )?;
            return Ok(Some(text));
        }
    }
    let words = sequencer.code().len();
    let text = format!(in heap;
        "the tree has {words} code words, and the sheet another number of them"
    )?;
    Ok(Some(text))
}

// A sentence on a refusal of a sheet, if there is something to say.
pub fn sheet_advice(
    heap: Global,
    sheet: &[u8],
    refusal: Refusal,
) -> Result<Option<String>, AllocError> {
    match refusal.cause {
        Cause::SheetHeader => header_advice(heap, sheet),
        Cause::NotTheTranslation => code_advice(heap, sheet),
        _ => Ok(Some(table_advice(heap, table_in(sheet), refusal)?)),
    }
}
