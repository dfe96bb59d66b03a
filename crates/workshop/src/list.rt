// `workshop list`: tree and code of a table or a sheet on one page.
use crate::files::Given;
use crate::stop::{Stop, stopped};
use listing::listing;
use sequencer::state::Sequencer;

// Prints the page of the program that is loaded.
pub fn print_page(rt: &HostRuntime, sequencer: &Sequencer) -> Result<(), Stop> {
    match listing(rt.alloc(), sequencer.nodes(), sequencer.code()) {
        Ok(page) => Ok(rt.print(page)?),
        Err(error) => stopped(rt, error),
    }
}

pub fn list(rt: &HostRuntime, path: &str) -> Result<(), Stop> {
    let mut sequencer = Sequencer::new();
    let given = Given::read(rt, path)?;
    given.accept(rt, &mut sequencer)?;
    let form = given.form;
    println!(rt; "Program: {path}, a {form}\n")?;
    print_page(rt, &sequencer)
}
