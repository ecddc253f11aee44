// Closing an assignment: what the atoms say in the graph that settles it, and what the clauses give, in turn until nothing more is given.
#![tactic(auto)]

mod prepared;

ghost use Rattle.std.specs.Prelude.{◌≡◌, ◌≤◌, length, ◌↔◌, ℕ, ◌<◌, T, MatchOption};
ghost use Rattle.plan.specs.File.{file_of};
ghost use Rattle.plan.specs.Places.{Without, Found};
ghost use Rattle.plan.specs.Ranged.{LiteralFits, max_variables};
ghost use Rattle.plan.specs.Search.{Assigned, CloseIs};
ghost use Rattle.plan.specs.Meaning.{atom, true_in, literal_of};
ghost use Rattle.plan.specs.Tables.{edges_of, atoms_of, clauses_of, atom_of};
ghost use Rattle.walk.specs.Walking.{Placed, Those, CountLengths};
ghost use Rattle.unit.specs.Clauses.{AllQuiet};
ghost use Rattle.unit.specs.Queue.{Known};
ghost use Rattle.closing.specs.Closed.{closed_of, or};
ghost use Rattle.closing.specs.Atoms.{AtomReady, Unsaid, In, Outside, Counting, Due, Gets, Told, Looked, LookedBoth, AllLooked, AllGiven};
ghost use Rattle.closing.specs.Rounds.{Unchanged, Round};

use index::IndexedClauses;
use plan::{Assignment, Atom, Edge, Measure, Side, Tables};
pub use prepared::Prepared;
pub use unit::Clash;
use walk::{Distances, Graph, Members};

// What a look at the atoms, or a round, does to an assignment where it finds no clash.
#[derive(Clone, Copy)]
pub enum Step {
    Set,
    Still,
}

impl Step {
    // What two steps do, one behind the other.
    fn or(self, second: Step) -> Step
        ensures { result ≡ or self second }
    {
        match self {
            Step::Set => Step::Set,
            Step::Still => second,
        }
    }
}

// Adds a literal that a rule gives.
fn give(values: &mut [i8], literal: i16) -> Result<Step, Clash>
    requires assigned { Assigned (length values.old) values.old }
    requires values_len_bound { length values.old ≤ max_variables }
    requires literal_fits { LiteralFits (length values.old) literal }
    ensures { Gets literal values.old values.new result }
{
    let value = plan::value_of(values, literal);
    // A `match` on a signed number tells the proof nothing of its arms.
    if value == 1 {
        return Ok(Step::Still);
    }
    if value == -1 {
        return Err(Clash);
    }
    plan::put(values, literal);
    Ok(Step::Set)
}

// The literal that an atom gives where it holds, or where it fails.
fn given(atom: Atom, holds: bool) -> i16
    requires { atom.variable ≤ max_variables }
    ensures { result ≡ literal_of holds atom.variable }
{
    plan::literal_of(usize::from(atom.variable), holds)
}

// Whether the literal of the atom numbered `at` is still to be said, and the atom is not one of `others`.
fn is_due(atoms: &[Atom], at: usize, others: u64, holds: bool, values: &[i8]) -> bool
    requires at_bound { at < 64 }
    requires at_in_bounds { at < length atoms.now }
    requires atom_ready { AtomReady values.now (atom (atoms_of atoms.now) at) }
    ensures { T result ↔ Due others atoms.now holds values.now at }
{
    !plan::is_set_to(values, atoms[at].variable, holds) && !walk::has(others, at)
}

// The first atom, not one of `others`, whose literal is not there yet.
fn next_to_say(tables: &Tables, others: u64, holds: bool, values: &[i8]) -> Option<usize>
    requires { Assigned tables.now.plan.variables values.now }
    ensures { MatchOption result (Without (Due others tables.now.atoms.now holds values.now) 0 (length tables.now.atoms.now)) (λ at. Found (Due others tables.now.atoms.now holds values.now) 0 (length tables.now.atoms.now) at) }
{
    (0..tables.atoms.len()).find(|at| is_due(tables.atoms, *at, others, holds, values))
}

// Asks one atom, numbered `at`, for a verdict, by the distances from its source in the graph that settles it. One of `others` says nothing; whether it is
// one is asked last, where a literal would be given, since few atoms come that far.
fn look_at(
    atom: Atom,
    at: usize,
    others: u64,
    distances: &Distances,
    holds: bool,
    values: &mut [i8],
) -> Result<Step, Clash>
    requires at_bound { at < 64 }
    requires atom_ready { AtomReady values.old (atom_of atom) }
    ensures { Told (Outside others at) holds (atom_of atom) distances.now values.old values.new result }
{
    if walk::is_true(atom, distances) != holds || walk::has(others, at) {
        return Ok(Step::Still);
    }
    give(values, given(atom, holds))
}

// Asks the atoms that count hops, which are those that are not in `lengths`, for a verdict. Atoms of one source behind one another share a walk; none
// is made for an atom whose literal is there.
fn look_for(prepared: &Prepared, holds: bool, values: &mut [i8]) -> Result<Step, Clash>
    requires { Assigned prepared.now.tables.plan.variables values.old }
    ensures { Looked (Outside prepared.now.lengths) prepared.now.tables.edges.now prepared.now.tables.atoms.now holds values.old values.new result }
{
    let tables = &prepared.tables;
    let lengths = prepared.lengths;
    let Some(first) = next_to_say(tables, lengths, holds, values) else {
        return Ok(Step::Still);
    };
    let sets = walk::neighbours(&Graph {
        edges: tables.edges,
        values,
        side: Side::settling(holds),
    });
    let mut source = tables.atoms[first].from;
    let mut distances = Distances::blank();
    walk::walk(&sets, usize::from(source), &mut distances);
    let mut step = Step::Still;
    for number in first..tables.atoms.len() {
        let atom = tables.atoms[number];
        if atom.from != source {
            if !is_due(tables.atoms, number, lengths, holds, values) {
                continue;
            }
            source = atom.from;
            walk::walk(&sets, usize::from(source), &mut distances);
        }
        let told = look_at(atom, number, lengths, &distances, holds, values)?;
        step = step.or(told);
    }
    Ok(step)
}

// Of a set of atoms, those whose literal is still to be said.
fn to_say(tables: &Tables, set: u64, holds: bool, values: &[i8]) -> u64
    requires assigned { Assigned tables.now.plan.variables values.now }
    requires count_lengths { CountLengths (atoms_of tables.now.atoms.now) tables.now.plan.atoms set }
    ensures { Those (Unsaid tables.now.atoms.now holds values.now) set result }
{
    walk::filtered(
        set,
        |k| !plan::is_set_to(values, tables.atoms[k].variable, holds),
    )
}

// Adds the literals of a set of atoms for a verdict.
fn give_all(tables: &Tables, set: u64, holds: bool, values: &mut [i8]) -> Result<Step, Clash>
    requires assigned { Assigned tables.now.plan.variables values.old }
    requires by_index { (j : ℕ) → In set j → j < length tables.now.atoms.now }
    ensures { AllGiven tables.now.edges.now tables.now.atoms.now set holds values.old values.new result }
{
    let mut step = Step::Still;
    for number in Members(set) {
        let atom = tables.atoms[number];
        let told = give(values, given(atom, holds))?;
        step = step.or(told);
    }
    Ok(step)
}

// Asks the atoms that count lengths for a verdict. One walk for each source, and none for an atom whose literal is there.
fn look_by_length(prepared: &Prepared, holds: bool, values: &mut [i8]) -> Result<Step, Clash>
    requires { Assigned prepared.now.tables.plan.variables values.old }
    ensures { Looked (In prepared.now.lengths) prepared.now.tables.edges.now prepared.now.tables.atoms.now holds values.old values.new result }
{
    let tables = &prepared.tables;
    let asked = to_say(tables, prepared.lengths, holds, values);
    let side = Side::settling(holds);
    let graph = Graph {
        edges: tables.edges,
        values,
        side,
    };
    let truths = walk::true_by_length(&graph, tables.atoms, asked);
    let told = if holds { truths } else { asked & !truths };
    give_all(tables, told, holds, values)
}

// Asks the atoms that count hops, or those that count lengths, for a verdict.
fn look_by(
    measure: Measure,
    prepared: &Prepared,
    holds: bool,
    values: &mut [i8],
) -> Result<Step, Clash>
    requires { Assigned prepared.now.tables.plan.variables values.old }
    ensures { Looked (Counting measure prepared.now.lengths) prepared.now.tables.edges.now prepared.now.tables.atoms.now holds values.old values.new result }
{
    match measure {
        Measure::Hops => look_for(prepared, holds, values),
        Measure::Lengths => look_by_length(prepared, holds, values),
    }
}

// Asks them for both verdicts.
fn look_both(measure: Measure, prepared: &Prepared, values: &mut [i8]) -> Result<Step, Clash>
    requires { Assigned prepared.now.tables.plan.variables values.old }
    ensures { LookedBoth (Counting measure prepared.now.lengths) prepared.now.tables.edges.now prepared.now.tables.atoms.now values.old values.new result }
{
    let first = look_by(measure, prepared, true, values)?;
    let second = look_by(measure, prepared, false, values)?;
    Ok(first.or(second))
}

// Asks all atoms for both verdicts. No atom that counts lengths: no length walk.
fn look_at_atoms(prepared: &Prepared, values: &mut [i8]) -> Result<Step, Clash>
    requires { Assigned prepared.now.tables.plan.variables values.old }
    ensures { AllLooked prepared.now.tables.edges.now prepared.now.tables.atoms.now values.old values.new result }
{
    let first = look_both(Measure::Hops, prepared, values)?;
    if prepared.lengths == 0 {
        return Ok(first);
    }
    let second = look_both(Measure::Lengths, prepared, values)?;
    Ok(first.or(second))
}

// Whether every edge's variable is as it was.
fn same_edges(edges: &[Edge], before: &Assignment, values: &[i8]) -> bool
    requires values_len_bound { length values.now ≤ max_variables }
    requires placed { Placed (edges_of edges.now) (length values.now) }
    ensures { Unchanged edges.now before.now.values values.now result }
{
    edges.iter().all(|edge| {
        let at = usize::from(edge.variable) - 1;
        before.values[at] == values[at]
    })
}

// Looks at the atoms, and adds what the clauses give where that set something. 'Still': nothing more is given. Where no edge changed
// in the whole round, another look at the atoms would say nothing new.
fn round(prepared: &Prepared, values: &mut [i8]) -> Result<Step, Clash>
    requires assigned { Assigned prepared.now.tables.plan.variables values.old }
    requires all_quiet { AllQuiet (true_in values.old) (clauses_of prepared.now.tables.clauses.now) }
    ensures { Round (file_of prepared.now.tables) values.old values.new result }
{
    let before = Assignment::of(values);
    match look_at_atoms(prepared, values)? {
        Step::Still => return Ok(Step::Still),
        Step::Set => {}
    }
    let clauses = IndexedClauses {
        table: prepared.tables.clauses,
        index: prepared.index,
    };
    unit::propagate_changes(&clauses, &before.values, values)?;
    if same_edges(prepared.tables.edges, &before, values) {
        return Ok(Step::Still);
    }
    Ok(Step::Set)
}

// Closes a lent assignment by the index of the clauses. `tried` is the literal that was added to a closed set; `None` where nothing is known.
pub fn close_after(prepared: &Prepared, tried: Option<i16>, values: &mut [i8]) -> Result<(), Clash>
    requires assigned { Assigned prepared.now.tables.plan.variables values.old }
    requires known { Known prepared.now.tables.clauses.now values.old tried }
    ensures assigned_2 { Assigned prepared.now.tables.plan.variables values.new }
    ensures close_is { CloseIs (file_of prepared.now.tables) values.old (closed_of result values.new) }
{
    let clauses = IndexedClauses {
        table: prepared.tables.clauses,
        index: prepared.index,
    };
    unit::propagate(&clauses, tried, values)?;
    // Rounds, until one sets nothing.
    loop {
        match round(prepared, values)? {
            Step::Set => {}
            Step::Still => return Ok(()),
        }
    }
}

// Closes a lent assignment of which nothing is known.
pub fn close(tables: &Tables, values: &mut [i8]) -> Result<(), Clash>
    requires { Assigned tables.now.plan.variables values.old }
    ensures assigned_2 { Assigned tables.now.plan.variables values.new }
    ensures close_is { CloseIs (file_of tables.now) values.old (closed_of result values.new) }
{
    let index = index::index_of(tables.clauses);
    let prepared = Prepared {
        tables: *tables,
        index: &index,
        lengths: walk::length_atoms(tables.atoms),
    };
    close_after(&prepared, None, values)
}
