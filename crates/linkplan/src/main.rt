// linkplan: reads a plan file on standard input and writes its first plan, or that there is none, or that the budget did not
// decide it.
#![tactic(auto)]

use plan::Assignment;
use planner::Found;
use std::io;
use std::io::Write;
use text::{INPUT, Out};

const BUDGET: u32 = 1000000;

fn main(rt: HostRuntime) -> io::Result<()> {
    let mut file = [0u8; INPUT];
    let size = text::read_full(&mut rt.stdin(), &mut file)?;
    let mut out = Out::new(io::writer(&rt));
    report(&mut out, &file[..size])?;
    out.flush()
}

fn report(out: &mut impl Write, file: &[u8]) -> io::Result<()> {
    match planner::read(file) {
        Err(why) => writeln!(out, "r {why}"),
        Ok(plan) => {
            let mut values = [0i8; Assignment::MAX];
            let count = usize::from(plan.variables).min(Assignment::MAX);
            searched(out, file, &mut values[..count])
        }
    }
}

// What the search finds, with a place of `values` for each variable.
fn searched(out: &mut impl Write, file: &[u8], values: &mut [i8]) -> io::Result<()> {
    let branchings = match planner::search(file, BUDGET, values) {
        Err(why) => return writeln!(out, "r {why}"),
        Ok(Found::Plan(branchings)) => {
            writeln!(out, "s SATISFIABLE")?;
            assignment(out, values)?;
            branchings
        }
        Ok(Found::Impossible(branchings)) => {
            writeln!(out, "s UNSATISFIABLE")?;
            branchings
        }
        Ok(Found::Undecided(branchings)) => {
            writeln!(out, "s UNKNOWN")?;
            branchings
        }
    };
    writeln!(out, "c branchings {branchings}")
}

// The line of all variables, each with a minus for off, and a closing 0.
fn assignment(out: &mut impl Write, values: &[i8]) -> io::Result<()> {
    write!(out, "v")?;
    for (i, value) in values.iter().enumerate() {
        let sign = if *value < 0 { "-" } else { "" };
        let number = i + 1;
        write!(out, " {sign}{number}")?;
    }
    writeln!(out, " 0")
}
