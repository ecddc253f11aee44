// linkdimacs: reads a plan file on standard input and writes it as DIMACS text, part by part, so that the largest file needs no more room than
// its largest block.
#![tactic(auto)]

use listing::PART;
use plan::{Refusal, Tables};
use reader::Buffers;
use std::io;
use text::INPUT;

fn main(rt: HostRuntime) -> io::Result<()> {
    let mut file = [0u8; INPUT];
    let size = text::read_full(&mut rt.stdin(), &mut file)?;
    report(&rt, &file[..size])
}

fn report(rt: &impl Print, file: &[u8]) -> io::Result<()> {
    let mut buffers = Buffers::new();
    match buffers.read(file) {
        Err(why) => println!(rt; "r {why}"),
        Ok(tables) => printed(rt, &tables),
    }
}

fn printed(rt: &impl Print, tables: &Tables) -> io::Result<()> {
    if let Some(atom) = clauses::first_unwritten(tables.atoms) {
        let why = Refusal::NoBlock(atom + 1);
        return println!(rt; "r {why}");
    }
    let mut out = [0u8; PART];
    // The parts of the text, one behind the other: the front, and each atom's.
    for k in 0..=tables.plan.atoms {
        let end = listing::print_part(&mut out, 0, tables, k);
        rt.write_all(&out[..end])?;
    }
    Ok(())
}
