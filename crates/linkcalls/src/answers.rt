// The calls, and the line of each answer.
use crate::{BEFORE, MAX_ROOM, Request, Stop};
use plan::{Plan, Refusal};
use planner::{Answer, CloseAnswer, Counts, Found, Judgement, Rules};
use std::fmt::Display;
use std::io::Write;
use std::{fmt, io};

// Makes the call and writes its line. The byte is told here once: an enum between would be a second match.
pub(crate) fn answer(out: &mut impl Write, request: Request<'_>) -> Result<(), Stop> {
    let Request {
        call,
        file,
        text,
        assignment,
        atom,
        budget,
        room,
    } = request;
    if room > MAX_ROOM {
        return Err(Stop::BadRequest);
    }
    match call {
        1 => line(out, planner::read(file))?,
        2 => line(out, planner::judge(file, assignment))?,
        3 => lent(
            out,
            &mut [BEFORE; MAX_ROOM][..room],
            |res| planner::close(file, assignment, res),
        )?,
        4 => lent(
            out,
            &mut [i16::from(BEFORE); MAX_ROOM][..room],
            |literals| planner::reason(file, assignment, atom, literals),
        )?,
        5 => lent(
            out,
            &mut [BEFORE; MAX_ROOM][..room],
            |res| planner::search(file, budget, res),
        )?,
        6 => lent(
            out,
            &mut [i32::from(BEFORE); MAX_ROOM][..room],
            |numbers| planner::write_clauses(file, numbers),
        )?,
        7 => lent(
            out,
            &mut [BEFORE.cast_unsigned(); MAX_ROOM][..room],
            |bytes| planner::write_dimacs(file, bytes).map(Printed),
        )?,
        8 => lent(
            out,
            &mut [BEFORE.cast_unsigned(); MAX_ROOM][..room],
            |bytes| planner::read_dimacs(file, text, bytes),
        )?,
        _ => return Err(Stop::BadRequest),
    }
    Ok(())
}

// The line of a call that is lent no buffer.
fn line(out: &mut impl Write, answer: impl Say) -> io::Result<()> {
    answer.say(out)?;
    writeln!(out)
}

// The line of a call that is lent a buffer: behind the answer every place of it.
fn lent<T: Display, A: Say, F: FnOnce(&mut [T]) -> Result<A, Refusal>>(
    out: &mut impl Write,
    places: &mut [T],
    call: F,
) -> io::Result<()>
    requires { F.IsAlwaysCallable call }
{
    call(places).say(out)?;
    writeln!(out, " :{}", Places(places))
}

// Every place of a lent buffer, each behind one blank. They are one value, since a `write!` for each takes up to twice as long.
#[derive(Clone, Copy)]
struct Places<'a, T>(&'a [T]);

impl<T: Display> Display for Places<'_, T> {
    fn fmt<W: fmt::Write>(&self, f: &mut fmt::Formatter<W>) -> fmt::Result {
        for place in self.0 {
            f.write_str(" ")?;
            place.fmt(f)?;
        }
        Ok(())
    }
}

// An answer, in the words of its line. Not `Display`: the answers are types of other crates, and these words are this program's alone.
trait Say: Copy {
    fn say(self, out: &mut impl Write) -> io::Result<()>;
}

impl<A: Say> Say for Result<A, Refusal> {
    fn say(self, out: &mut impl Write) -> io::Result<()> {
        match self {
            Ok(answer) => answer.say(out),
            Err(why) => write!(out, "refused {why}"),
        }
    }
}

impl Say for Plan {
    fn say(self, out: &mut impl Write) -> io::Result<()> {
        let Plan {
            nodes,
            variables,
            edges,
            atoms,
            clauses,
            literals,
        } = self;
        write!(
            out,
            "accepted {nodes} {variables} {edges} {atoms} {clauses} {literals}"
        )
    }
}

impl Say for Judgement {
    fn say(self, out: &mut impl Write) -> io::Result<()> {
        match self {
            Judgement::Plan => write!(out, "plan"),
            Judgement::Clause(number) => write!(out, "clause {number}"),
            Judgement::Atom(number) => write!(out, "atom {number}"),
        }
    }
}

impl Say for CloseAnswer {
    fn say(self, out: &mut impl Write) -> io::Result<()> {
        match self {
            CloseAnswer::Closed => write!(out, "closed"),
            CloseAnswer::Clash => write!(out, "clash"),
        }
    }
}

impl Say for Answer {
    fn say(self, out: &mut impl Write) -> io::Result<()> {
        match self {
            Answer::Holds(count) => write!(out, "holds {count}"),
            Answer::Fails(count) => write!(out, "fails {count}"),
            Answer::Open => write!(out, "open"),
        }
    }
}

impl Say for Found {
    fn say(self, out: &mut impl Write) -> io::Result<()> {
        match self {
            Found::Plan(branchings) => write!(out, "plan {branchings}"),
            Found::Impossible(branchings) => write!(out, "impossible {branchings}"),
            Found::Undecided(branchings) => write!(out, "undecided {branchings}"),
        }
    }
}

impl Say for Counts {
    fn say(self, out: &mut impl Write) -> io::Result<()> {
        let Counts {
            variables,
            clauses,
            numbers,
        } = self;
        write!(out, "written {variables} {clauses} {numbers}")
    }
}

impl Say for Rules {
    fn say(self, out: &mut impl Write) -> io::Result<()> {
        let Rules { clauses, literals } = self;
        write!(out, "rules {clauses} {literals}")
    }
}

// How many bytes `write_dimacs` wrote.
#[derive(Clone, Copy)]
struct Printed(usize);

impl Say for Printed {
    fn say(self, out: &mut impl Write) -> io::Result<()> {
        write!(out, "printed {}", self.0)
    }
}
