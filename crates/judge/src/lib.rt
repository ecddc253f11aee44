// judge: whether an assignment is a plan, and if not, the first thing that is wrong with it.
#![tactic(auto)]

ghost use Rattle.std.specs.Prelude.{◌↔◌, ◌<◌, ◌≤◌, T, length};
ghost use Rattle.plan.specs.File.{file_of};
ghost use Rattle.plan.specs.Meaning.{Full, HasTrue};
ghost use Rattle.plan.specs.Ranged.{max_variables, LiteralsFit};
ghost use Rattle.plan.specs.Search.{Assigned};
ghost use Rattle.plan.specs.Judging.{Judged};
ghost use Rattle.plan.specs.Tables.{edges_of, atoms_of, atom_of, clauses_of};
ghost use Rattle.plan.specs.ClauseTable.{Table};
ghost use Rattle.walk.specs.Walking.{Walked};
ghost use Rattle.judge.specs.Judgements.{judgement_of, FirstIs, RightIn, RightBy, TruthOf};

use plan::{Atom, Side, Tables};
use walk::{Distances, Graph};

// What an assignment is: a plan, or the number of the first clause without a true literal, or of the first atom whose variable is wrong.
#[derive(Clone, Copy, Debug, PartialEq, Eq)]
pub enum Judgement {
    Plan,
    Clause(usize),
    Atom(usize),
}

// Whether a clause has a true literal.
fn has_true(assignment: &[i8], clause: &[i16]) -> bool
    requires assigned { Assigned (length assignment.now) assignment.now }
    requires assignment_len_bound { length assignment.now ≤ max_variables }
    requires literals_fit { LiteralsFit (length assignment.now) clause.now }
    ensures { T result ↔ HasTrue assignment.now clause.now }
{
    clause
        .iter()
        .any(|literal| plan::value_of(assignment, *literal) == 1)
}

// The first clause without a true literal, numbered from 1.
fn first_untrue(assignment: &[i8], clauses: &[i16]) -> Option<usize>
    requires assigned { Assigned (length assignment.now) assignment.now }
    requires assignment_len_bound { length assignment.now ≤ max_variables }
    requires table { Table (length assignment.now) clauses.now }
    ensures { FirstIs (HasTrue assignment.now) (clauses_of clauses.now) result }
{
    let mut at = 0;
    let mut number = 0;
    // A step is as long as the clause.
    while at < clauses.len() {
        let end = plan::clauses::end_of(clauses, at);
        number += 1;
        if !has_true(assignment, &clauses[at..end]) {
            return Some(number);
        }
        at = end + 1;
    }
    None
}

// The truth of the atom numbered `number`, from 0: of one in `lengths`, those that count lengths, whether it is in `long`, those of them that are true;
// of another, by the distances from its source.
fn truth_of(atom: Atom, number: usize, lengths: u64, long: u64, distances: &Distances) -> bool
    requires to_bound { atom.to < 64 }
    requires number_bound { number < 64 }
    ensures { TruthOf (atom_of atom) number lengths long distances.now result }
{
    if walk::has(lengths, number) {
        walk::has(long, number)
    } else {
        walk::is_true(atom, distances)
    }
}

// Whether an atom's variable equals its truth.
fn is_right(atom: Atom, truth: bool, assignment: &[i8]) -> bool
    requires le_variable { 1 ≤ atom.variable }
    requires variable_in_bounds { atom.variable ≤ length assignment.now }
    ensures { RightBy assignment.now (atom_of atom) truth result }
{
    plan::is_set_to(assignment, atom.variable, true) == truth
}

// Walks from the node `next`, where the distances from `source` are known.
fn walk_on(neighbours: &[u64; 64], source: usize, next: usize, distances: &mut Distances)
    requires next_bound { next < 64 }
    requires walked { Walked neighbours.now source distances.old }
    ensures { Walked neighbours.now next distances.new }
{
    if next != source {
        walk::walk(neighbours, next, distances);
    }
}

// The first atom whose variable is wrong, numbered from 1.
fn first_wrong(tables: &Tables, assignment: &[i8]) -> Option<usize>
    requires { Full tables.now.plan.variables assignment.now }
    ensures { FirstIs (RightIn (edges_of tables.now.edges.now) assignment.now) (atoms_of tables.now.atoms.now) result }
{
    let graph = Graph {
        edges: tables.edges,
        values: assignment,
        side: Side::Under,
    };
    let lengths = walk::length_atoms(tables.atoms);
    let long = walk::true_by_length(&graph, tables.atoms, lengths);
    let neighbours = walk::neighbours(&graph);
    let mut source = 0;
    let mut distances = Distances::blank();
    walk::walk(&neighbours, source, &mut distances);
    for (number, atom) in tables.atoms.iter().enumerate() {
        if !walk::has(lengths, number) {
            let from = usize::from(atom.from);
            walk_on(&neighbours, source, from, &mut distances);
            source = from;
        }
        let truth = truth_of(*atom, number, lengths, long, &distances);
        if !is_right(*atom, truth, assignment) {
            return Some(number + 1);
        }
    }
    None
}

// Judges a full assignment.
pub fn judge(tables: &Tables, assignment: &[i8]) -> Judgement
    requires { Full tables.now.plan.variables assignment.now }
    ensures { Judged (file_of tables.now) assignment.now (judgement_of result) }
{
    if let Some(number) = first_untrue(assignment, tables.clauses) {
        return Judgement::Clause(number);
    }
    match first_wrong(tables, assignment) {
        Some(number) => Judgement::Atom(number),
        None => Judgement::Plan,
    }
}
