// planner: the public calls of the library. Each reads the file into buffers of its own, makes its checks in the document's order, and lends the tables on.
#![tactic(auto)]

mod checks;

ghost use Rattle.planner.specs.Read.{ReadIs};
ghost use Rattle.planner.specs.Judge.{JudgeIs};
ghost use Rattle.planner.specs.Close.{ClosedIs};
ghost use Rattle.planner.specs.Reason.{ReasonedIs};
ghost use Rattle.planner.specs.Search.{SearchedIs};
ghost use Rattle.planner.specs.WriteClauses.{WrittenIs};
ghost use Rattle.planner.specs.WriteDimacs.{PrintedIs};
ghost use Rattle.planner.specs.ReadDimacs.{RulesReadIs};

use checks::{require_atom, require_blocks, require_length, require_room, require_values};
pub use clauses::Counts;
pub use dimacs::Rules;
pub use judge::Judgement;
use plan::{Assignment, Clause};
pub use plan::{Plan, Refusal};
use reader::Buffers;
pub use reason::Answer;
pub use search::Found;

// What closing answers: what follows is written, or there is a clash. No `Result` in a `Result`: a clash is an answer, and only a refusal goes by `?`.
#[derive(Clone, Copy, Debug, PartialEq, Eq)]
pub enum CloseAnswer {
    Closed,
    Clash,
}

// Reads a plan file: how many of each sort it has, or why it is refused.
pub fn read(file: &[u8]) -> Result<Plan, Refusal>
    ensures { ReadIs file.now result }
{
    let mut buffers = Buffers::new();
    let tables = buffers.read(file)?;
    Ok(tables.plan)
}

// Judges a full assignment: a plan, or the first clause without a true literal, or the first atom whose variable is wrong.
pub fn judge(file: &[u8], assignment: &[i8]) -> Result<Judgement, Refusal>
    ensures { JudgeIs file.now assignment.now result }
{
    let mut buffers = Buffers::new();
    let tables = buffers.read(file)?;
    require_length(&tables, assignment)?;
    require_values(assignment, false)?;
    Ok(judge::judge(&tables, assignment))
}

// Closes a partial assignment: what follows from it is written to `res`, or there is a clash.
pub fn close(file: &[u8], given: &[i8], res: &mut [i8]) -> Result<CloseAnswer, Refusal>
    ensures { ClosedIs file.now given.now res.old res.new result }
{
    let mut buffers = Buffers::new();
    let tables = buffers.read(file)?;
    require_length(&tables, given)?;
    require_length(&tables, res)?;
    require_values(given, true)?;
    // A clash leaves the result as it was, so a copy is closed.
    let mut values = Assignment::of(given);
    let closed = &mut values.values[..given.len()];
    match closing::close(&tables, closed) {
        Err(_) => Ok(CloseAnswer::Clash),
        Ok(()) => {
            res.copy_from_slice(closed);
            Ok(CloseAnswer::Closed)
        }
    }
}

// The reason why an atom holds or fails under a partial assignment, as a clause; or that it is open. Atoms are numbered from 1.
pub fn reason(
    file: &[u8],
    assignment: &[i8],
    atom: usize,
    out: &mut [i16],
) -> Result<Answer, Refusal>
    ensures { ReasonedIs file.now assignment.now atom out.old out.new result }
{
    let mut buffers = Buffers::new();
    let tables = buffers.read(file)?;
    require_length(&tables, assignment)?;
    require_values(assignment, true)?;
    require_atom(&tables, atom)?;
    Ok(reason::reason(&tables, assignment, atom - 1, out)?)
}

// Searches for the first plan, off before on, variable 1 weighing most: it is written to `res`, or there is none, or the budget of
// branchings did not decide it.
pub fn search(file: &[u8], budget: u32, res: &mut [i8]) -> Result<Found, Refusal>
    ensures { SearchedIs file.now budget res.old res.new result }
{
    let mut buffers = Buffers::new();
    let tables = buffers.read(file)?;
    require_length(&tables, res)?;
    Ok(search::search(&tables, budget, res))
}

// Writes the file out as clauses: the file's own, then a block for each atom, each clause ended by 0.
pub fn write_clauses(file: &[u8], out: &mut [i32]) -> Result<Counts, Refusal>
    ensures { WrittenIs file.now out.old out.new result }
{
    let mut buffers = Buffers::new();
    let tables = buffers.read(file)?;
    require_blocks(&tables)?;
    Ok(clauses::write_clauses(&tables, out)?)
}

// Writes the file out as DIMACS text: the `p cnf` line, the file's own clauses, then the block of each atom behind its line `c atom`. Answers with its length.
pub fn write_dimacs(file: &[u8], out: &mut [u8]) -> Result<usize, Refusal>
    ensures { PrintedIs file.now out.old out.new result }
{
    let mut buffers = Buffers::new();
    let tables = buffers.read(file)?;
    require_blocks(&tables)?;
    Ok(listing::write_text(&tables, out)?)
}

// Reads DIMACS text as house rules for the file: the records of its clauses, which go before the file's end record.
pub fn read_dimacs(file: &[u8], text: &[u8], out: &mut [u8]) -> Result<Rules, Refusal>
    ensures { RulesReadIs file.now text.now out.old out.new result }
{
    let mut buffers = Buffers::new();
    let tables = buffers.read(file)?;
    let mut table = [0; Clause::TABLE];
    let rules = dimacs::read_rules(tables.plan, text, &mut table)?;
    require_room(out, 3 * rules.clauses + 2 * rules.literals)?;
    dimacs::put_records(out, &table[..rules.literals + rules.clauses]);
    Ok(rules)
}
