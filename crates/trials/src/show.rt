// A program's code, word for word or as a sum.
use sheet::layout::Entry;
use std::{fmt, io};
use vocabulary::code::Word;
use vocabulary::node::Node;

// A word as opcode, node and operand.
#[derive(Clone, Copy)]
struct WordInNumbers(Word);

impl fmt::Display for WordInNumbers {
    fn fmt<W: fmt::Write>(&self, f: &mut fmt::Formatter<W>) -> fmt::Result {
        let opcode = self.0.instruction.opcode();
        let node = self.0.node;
        let operand = self.0.instruction.operand();
        write!(f, "{opcode}:{node}:{operand}")
    }
}

// Each of them behind a blank.
#[derive(Clone, Copy)]
struct CodeInNumbers<'a>(&'a [Word]);

impl fmt::Display for CodeInNumbers<'_> {
    fn fmt<W: fmt::Write>(&self, f: &mut fmt::Formatter<W>) -> fmt::Result {
        for word in self.0 {
            let word = WordInNumbers(*word);
            write!(f, " {word}")?;
        }
        Ok(())
    }
}

// Each word in numbers.
pub fn print_code(rt: &HostRuntime, code: &[Word]) -> io::Result<()> {
    let words = CodeInNumbers(code);
    println!(rt; "code{words}")
}

// The 32-bit FNV-1a sum, gone on with over the bytes of these entries, as a sheet has them.
fn summed<T: Entry>(sum: u32, entries: &[T]) -> u32 {
    entries.iter().fold(sum, |sum, entry| {
        entry.to_bytes().iter().fold(sum, |sum, byte| {
            (sum ^ u32::from(*byte)).wrapping_mul(16777619)
        })
    })
}

// The counts of nodes and of words, and a sum over both.
pub fn print_sum(rt: &HostRuntime, nodes: &[Node], code: &[Word]) -> io::Result<()> {
    let sum = summed(summed(2166136261, nodes), code);
    let n = nodes.len();
    let m = code.len();
    println!(rt; "sum {n} {m} {sum}")
}
