// linkrules: its argument names a plan file, and standard input has house rules for it as DIMACS text; it writes the plan file with the rules put in.
#![tactic(auto)]

ghost use Rattle.std.specs.Io.{ReadsAtMost};
ghost use Rattle.std.specs.Prelude.{◌≤◌, length};

use plan::Clause;
use std::env::Env;
use std::fs::File;
use std::io::{ErrorKind, Read};
use std::rt::Files;
use std::{io, str};
use text::INPUT;

// How much is read of the text: one byte more than there may be, so that a longer one is refused and not cut.
const TEXT: usize = 1048577;

// The records of all clauses that a plan file may have: 3 bytes for each, and 2 for each literal.
const RECORDS: usize = Clause::MAX * 3 + Clause::MAX_LITERALS * 2;

// The end record's bytes.
const END: usize = 3;

fn main(rt: HostRuntime) -> io::Result<()> {
    let mut name = [0u8; 4096];
    // An argument that is missing or too long is the empty name, which no file has.
    let size = rt.arg(1, &mut name).unwrap_or(0);
    match opened(&rt, &name[..size]) {
        Ok(mut plan) => {
            let mut file = [0u8; INPUT];
            let got = read_plan(&mut plan, &mut file)?;
            with_file(&rt, &file[..got])
        }
        Err(why) => eprintln!(rt; "linkrules: the plan file: {why}"),
    }
}

// Opens the plan file. A name that is not text opens none, since a path is text.
fn opened<R: Files>(rt: &R, name: &[u8]) -> io::Result<R::File> {
    let Ok(name) = str::from_utf8(name) else {
        return Err(io::Error::new(ErrorKind::InvalidInput, "its name is not UTF-8"));
    };
    File::open(rt, name)
}

// Reads the plan file. A folder can be opened too, and is read as an empty file.
fn read_plan(plan: &mut impl Read, file: &mut [u8]) -> io::Result<usize>
    ensures { ReadsAtMost result file.new }
{
    match text::read_full(plan, file) {
        Err(why) if why.kind() == ErrorKind::IsADirectory => Ok(0),
        got => got,
    }
}

// Goes on with the plan file.
fn with_file(rt: &(impl Input + Print + Eprint), file: &[u8]) -> io::Result<()> {
    let mut text = [0u8; TEXT];
    with_room(rt, file, text.as_mut_slice())
}

// Reads the text. The room comes as a slice, since a check of parts of so long an array takes minutes.
fn with_room(rt: &(impl Input + Print + Eprint), file: &[u8], text: &mut [u8]) -> io::Result<()> {
    let size = text::read_full(&mut rt.reader(), text)?;
    if size == text.len() {
        return eprintln!(rt; "linkrules: the text is longer than 1048576 bytes");
    }
    report(rt, file, &text[..size])
}

fn report(rt: &impl Print, file: &[u8], text: &[u8]) -> io::Result<()> {
    let mut records = [0u8; RECORDS];
    match planner::read_dimacs(file, text, &mut records) {
        Err(why) => println!(rt; "r {why}"),
        Ok(rules) => joined(rt, file, &records[..rules.clauses * 3 + rules.literals * 2]),
    }
}

// The records stand before the file's end record.
fn joined(rt: &impl Print, file: &[u8], records: &[u8]) -> io::Result<()>
    requires { 3 ≤ length file.now }
{
    let (front, end) = file.split_at(file.len() - END);
    rt.write_all(front)?;
    rt.write_all(records)?;
    rt.write_all(end)
}
