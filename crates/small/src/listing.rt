// A program on one page: its tree, and its code. It stands beside the crate `listing` since `small` prints as it always has: the page
// of `listing` has other columns and other lines.
use language::form::Form;
use language::rules::children;
use sequencer::state::Sequencer;
use std::io;
use vocabulary::code::Word;
use vocabulary::node::Node;

// Prints node `n` and, indented, the trees of its children. A child is lower than its parent in every accepted table; the
// test makes the listing end for any other.
fn print_node(rt: &HostRuntime, nodes: &[Node], n: usize, indent: usize) -> io::Result<()> {
    let Some(node) = nodes.get(n) else {
        return Ok(());
    };
    print!(rt; "{n:>3}  {:indent$}", "")?;
    match Form::try_from(*node) {
        Ok(form) => println!(rt; "{form}")?,
        Err(_unknown) => rt.println("unknown")?,
    }
    for child in children(*node).as_slice() {
        let child = usize::from(child.number);
        if child < n {
            print_node(rt, nodes, child, indent.saturating_add(2))?;
        }
    }
    Ok(())
}

// The code, a word a line.
fn print_code(rt: &HostRuntime, code: &[Word]) -> io::Result<()> {
    for (position, word) in code.iter().enumerate() {
        let name = word.instruction.name();
        let operand = word.instruction.operand();
        let node = word.node;
        println!(rt; "{position:>4}  {name:<5} {operand:>11}  {node:>3}")?;
    }
    Ok(())
}

// The program that is loaded: its tree, from the last node down, and its code.
pub fn print_page(rt: &HostRuntime, sequencer: &Sequencer) -> anyhow::Result<()> {
    let nodes = sequencer.nodes();
    rt.println("Tree: node, form")?;
    print_node(rt, nodes, nodes.len().saturating_sub(1), 0)?;
    rt.println("\nCode: position, instruction, operand, node")?;
    print_code(rt, sequencer.code())?;
    Ok(())
}
