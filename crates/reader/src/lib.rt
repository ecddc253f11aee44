// reader: a plan file's bytes into the tables. Here: the head, then record after record until the answer.
#![tactic(auto)]

mod fields;
mod parts;
mod record;
mod records;

ghost use Rattle.std.specs.Prelude.{◌≡◌, pos, replicate};
ghost use Rattle.plan.specs.ClauseTable.{max_table};
ghost use Rattle.plan.specs.Ranged.{max_edges, max_atoms};
ghost use Rattle.plan.specs.declared.Kind.TheVariants.{Reaches};
ghost use Rattle.reader.specs.Format.{head_at, read_plan};
ghost use Rattle.reader.specs.Filling.{Steps, Answers};
ghost use Rattle.reader.specs.Reads.{Reads};

use fields::head_ok;
use plan::{Atom, Clause, Edge, Plan, Refusal, Tables};
use record::Record;

// Room for the tables of every file that may be accepted. (No Vec: no heap.)
#[derive(Clone, Copy)]
pub struct Buffers {
    pub edges: [Edge; Edge::TABLE],
    pub atoms: [Atom; Atom::TABLE],
    pub clauses: [i16; Clause::TABLE],
}

// What a record leads to: the next record's offset, with the counts so far; or the whole file's counts.
#[derive(Clone, Copy)]
enum Step {
    Next(usize, Plan),
    Done(Plan),
}

// The counts in front of the first record.
const NOTHING: Plan = Plan {
    nodes: 0,
    variables: 0,
    edges: 0,
    atoms: 0,
    clauses: 0,
    literals: 0,
};

// The file's length and its head.
fn head(file: &[u8]) -> Result<Step, Refusal>
    ensures { (b : _) → Steps b (head_at file.now) result }
{
    if file.len() > Plan::MAX_BYTES {
        return Err(Refusal::TooLong);
    }
    let record = Record::at(file, 0, NOTHING)?;
    if record.tag() != 1 {
        return Err(Refusal::Misplaced(0));
    }
    if record.len() != 4 {
        return Err(Refusal::BadLength(0));
    }
    let nodes = record.word(3);
    let variables = record.word(5);
    if !head_ok(nodes, variables) {
        return Err(Refusal::OutOfRange(0));
    }
    Ok(Step::Next(
        record.end(),
        Plan {
            nodes,
            variables,
            ..record.counts
        },
    ))
}

impl Buffers {
    // Tables without anything in them; a read lends on only what it wrote.
    pub fn new() -> Buffers
        ensures edges { result.edges ≡ replicate max_edges (record { from = 0; to = 0; length = 0; variable = 0 }) }
        ensures atoms { result.atoms ≡ replicate max_atoms (record { kind = Reaches; from = 0; to = 0; bound = 0; variable = 0 }) }
        ensures clauses { result.clauses ≡ replicate max_table (pos 0) }
    {
        Buffers {
            edges: [Edge::NONE; Edge::TABLE],
            atoms: [Atom::NONE; Atom::TABLE],
            clauses: [0; Clause::TABLE],
        }
    }

    // Reads a plan file into the tables, and lends their used parts.
    pub fn read(&mut self, file: &[u8]) -> Result<Tables<'_>, Refusal>
        ensures { Reads (read_plan file.now) result }
    {
        let plan = read_into(file, self)?;
        Ok(Tables {
            plan,
            edges: self.used_edges(plan),
            atoms: self.used_atoms(plan),
            clauses: self.used_clauses(plan),
        })
    }
}

// Reads a plan file into the tables, which keep it.
pub fn read_into(file: &[u8], buffers: &mut Buffers) -> Result<Plan, Refusal>
    ensures { Answers (read_plan file.now) result buffers.new }
{
    let mut step = head(file)?;
    // Each record says where the next one begins.
    loop {
        match step {
            Step::Next(at, counts) => {
                let record = Record::at(file, at, counts)?;
                step = buffers.take(record)?;
            }
            Step::Done(plan) => return Ok(plan),
        }
    }
}
