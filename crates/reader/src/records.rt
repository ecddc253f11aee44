// The records behind the head: each is tested, and goes into its table or is refused.
ghost use Rattle.std.specs.Prelude.{◌≡◌, true, false, [], ◌∷◌, ◌++◌, ◌+◌, ◌*◌, ◌≤◌, pos, MatchResult};
ghost use Rattle.plan.specs.ClauseTable.{max_table};
ghost use Rattle.plan.specs.Front.{Laid};
ghost use Rattle.plan.specs.declared.refusal.Refusal.TheVariants.{OutOfRange};
ghost use Rattle.reader.specs.Format.{len_at, literals_in, literals_ok, edge_at, atom_at, clause_at, end_at, step_at};
ghost use Rattle.reader.specs.Filling.{Takes};

use crate::fields::{atom_ok, edge_ok, literal_ok};
use crate::record::{Record, edge_len};
use crate::{Buffers, Step};
use plan::{Atom, Clause, Plan, Refusal};

// A number goes to its place, if the table has that place. (`get_mut` does not say what the table then holds.)
fn lay(table: &mut [i16], place: usize, number: i16)
    ensures { Laid (number ∷ []) place table.old table.new (place + 1) }
{
    if place < table.len() {
        table[place] = number;
    }
}

// Each of the record's literals is tested and goes to the table, from place `to` on, and a 0 behind them.
fn take_literals(source: Record, count: usize, table: &mut [i16], to: usize) -> Result<(), Refusal>
    requires long { count * 2 ≤ len_at source.file.now source.at }
    requires place { to ≤ max_table }
    ensures { let literals = literals_in source.entry.file.now (source.entry.at + 3) count in
        let ranged = literals_ok source.entry.counts.variables literals in
        MatchResult result
        (λ _. (ranged ≡ true) × Laid (literals ++ (pos 0 ∷ [])) to table.old table.new (to + count + 1))
        (λ y. (y ≡ OutOfRange source.entry.at) × (ranged ≡ false)) }
{
    for i in 0..count {
        let literal = source.word(3 + 2 * i).cast_signed();
        if !literal_ok(source.counts.variables, literal) {
            return Err(Refusal::OutOfRange(source.at));
        }
        lay(table, to + i, literal);
    }
    lay(table, to + count, 0);
    Ok(())
}

// Behind an end record the file ends.
fn take_end(source: Record) -> Result<Step, Refusal>
    ensures { (b : _) → Takes (end_at source.entry.file.now source.entry.at) source.entry.counts b result b }
{
    if source.len() != 0 {
        return Err(Refusal::BadLength(source.at));
    }
    let end = source.end();
    if source.file.len() != end {
        return Err(Refusal::Misplaced(end));
    }
    Ok(Step::Done(source.counts))
}

impl Buffers {
    // Takes the edge of a record, with a length field or without, into its table; or refuses it by the first refusal that the record meets, in the
    // document's order. The others do the same for their sorts.
    fn take_edge(&mut self, source: Record, long: bool) -> Result<Step, Refusal>
        ensures { Takes (edge_at long source.entry.file.now source.entry.at) source.entry.counts self.old result self.new }
    {
        let Record { at, counts, .. } = source;
        if source.len() != edge_len(long) {
            return Err(Refusal::BadLength(at));
        }
        let edge = source.edge(long);
        if !edge_ok(counts, edge) {
            return Err(Refusal::OutOfRange(at));
        }
        let n = counts.edges;
        if n >= Plan::MAX_EDGES {
            return Err(Refusal::TooMany(at));
        }
        let atoms = &self.atoms[..counts.atoms];
        if atoms.iter().any(|atom| atom.variable == edge.variable) {
            return Err(Refusal::Shared(at));
        }
        self.edges[n] = edge;
        Ok(Step::Next(
            source.end(),
            Plan {
                edges: n + 1,
                ..counts
            },
        ))
    }

    fn take_atom(&mut self, source: Record) -> Result<Step, Refusal>
        ensures { Takes (atom_at source.entry.file.now source.entry.at) source.entry.counts self.old result self.new }
    {
        let Record { at, counts, .. } = source;
        if source.len() != 9 {
            return Err(Refusal::BadLength(at));
        }
        let Ok(atom) = source.atom() else {
            return Err(Refusal::OutOfRange(at));
        };
        if !atom_ok(counts, atom) {
            return Err(Refusal::OutOfRange(at));
        }
        let n = counts.atoms;
        if n >= Atom::MAX {
            return Err(Refusal::TooMany(at));
        }
        let edges = &self.edges[..counts.edges];
        if edges.iter().any(|edge| edge.variable == atom.variable) {
            return Err(Refusal::Shared(at));
        }
        self.atoms[n] = atom;
        Ok(Step::Next(
            source.end(),
            Plan {
                atoms: n + 1,
                ..counts
            },
        ))
    }

    fn take_clause(&mut self, source: Record) -> Result<Step, Refusal>
        ensures { Takes (clause_at source.entry.file.now source.entry.at) source.entry.counts self.old result self.new }
    {
        let Record { at, counts, .. } = source;
        let len = usize::from(source.len());
        if len % 2 != 0 {
            return Err(Refusal::BadLength(at));
        }
        let n = len / 2;
        // 6 comes before 7. One pass tests and copies all the same: nothing looks at the tables of a refused file.
        let to = counts.literals + counts.clauses;
        take_literals(source, n, &mut self.clauses, to)?;
        if counts.clauses >= Clause::MAX || counts.literals + n > Clause::MAX_LITERALS {
            return Err(Refusal::TooMany(at));
        }
        Ok(Step::Next(
            source.end(),
            Plan {
                clauses: counts.clauses + 1,
                literals: counts.literals + n,
                ..counts
            },
        ))
    }

    // A record of any sort behind the head. The tag is told here once: an enum between would be a second match.
    pub(crate) fn take(&mut self, source: Record) -> Result<Step, Refusal>
        ensures { Takes (step_at source.entry.file.now source.entry.at) source.entry.counts self.old result self.new }
    {
        match source.tag() {
            1 => Err(Refusal::Misplaced(source.at)),
            2 => self.take_edge(source, false),
            3 => self.take_atom(source),
            4 => self.take_clause(source),
            5 => take_end(source),
            6 => self.take_edge(source, true),
            _ => Err(Refusal::UnknownTag(source.at)),
        }
    }
}
