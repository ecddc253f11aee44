// linkcnf: reads a plan file on standard input and writes it as clauses, one a line.
#![tactic(auto)]

use std::io;
use std::io::Write;
use text::{INPUT, Out};

// How many numbers there is room for.
const ROOM: usize = 16384;

fn main(rt: HostRuntime) -> io::Result<()> {
    let mut file = [0u8; INPUT];
    let size = text::read_full(&mut rt.stdin(), &mut file)?;
    let mut out = Out::new(io::writer(&rt));
    report(&mut out, &file[..size])?;
    out.flush()
}

fn report(out: &mut impl Write, file: &[u8]) -> io::Result<()> {
    let mut numbers = [0i32; ROOM];
    match planner::write_clauses(file, &mut numbers) {
        Err(why) => writeln!(out, "r {why}"),
        Ok(counts) => lines(out, &numbers, counts.numbers),
    }
}

// Each clause a line with its 0.
fn lines(out: &mut impl Write, numbers: &[i32], count: usize) -> io::Result<()> {
    for number in numbers.iter().take(count) {
        let end = if *number == 0 { '\n' } else { ' ' };
        write!(out, "{number}{end}")?;
    }
    Ok(())
}
