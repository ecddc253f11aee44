// linkbench: does one operation of the library many times, so that it can be timed.
//
// Standard input, numbers high byte first: the operation (1 byte), the repetitions (4) and a plan file, which is read once. It writes
// one line with a sum over what was done, or `r NUMBER VALUE`.
#![tactic(auto)]

mod work;

use plan::Tables;
use reader::Buffers;
use std::io;
use text::INPUT;

fn main(rt: HostRuntime) -> io::Result<()> {
    let mut input = rt.stdin();
    let mut head = [0u8; 5];
    text::read_full(&mut input, &mut head)?;
    let mut file = [0u8; INPUT];
    let size = text::read_full(&mut input, &mut file)?;
    let repetitions = u32::from_be_bytes([head[1], head[2], head[3], head[4]]);
    report(&rt, head[0], repetitions, &file[..size])
}

fn report(rt: &impl Print, operation: u8, repetitions: u32, file: &[u8]) -> io::Result<()> {
    let mut buffers = Buffers::new();
    match buffers.read(file) {
        Err(why) => println!(rt; "r {why}"),
        Ok(tables) => {
            let sum = done(operation, repetitions, file, &tables);
            println!(rt; "{sum}")
        }
    }
}

// The byte is told here once: an enum between would be a second match.
fn done(operation: u8, repetitions: u32, file: &[u8], tables: &Tables) -> u64 {
    match operation {
        1 => work::read(file, repetitions),
        2 => work::fill(tables, repetitions),
        3 => work::walk(tables, repetitions),
        4 => work::close(tables, repetitions),
        5 => work::write(tables, repetitions),
        6 => work::search(tables, repetitions),
        7 => work::print(tables, repetitions),
        8 => work::rules(tables, repetitions),
        9 => work::fill_chains(tables, repetitions),
        10 => work::length_walk(tables, repetitions),
        _ => 0,
    }
}
