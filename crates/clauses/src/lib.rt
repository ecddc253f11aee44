// A plan file written out as clauses: its own, and behind them a block for each atom.
#![tactic(auto)]

mod block;
mod parts;
mod shape;
mod sizes;
mod writer;

ghost use Rattle.std.specs.Prelude.{◌≡◌, ◌≤◌, ◌<◌, length, MatchOption};
ghost use Rattle.plan.specs.File.{file_of};
ghost use Rattle.plan.specs.Tables.{atoms_of, atom_of};
ghost use Rattle.plan.specs.Written.{has_block, first_unwritten, levels};
ghost use Rattle.plan.specs.Front.{Room, Put};
ghost use Rattle.clauses.specs.Writing.{Counting, Writes, AddedOne, Few, file_blocks};

use block::put_block;
pub use block::{Level, put_end, put_level, put_start};
use plan::{Atom, Kind, Short, Tables};
pub use shape::Shape;
pub use sizes::Sizes;
pub use writer::Writer;

// How much is written.
#[derive(Clone, Copy, Debug, PartialEq, Eq)]
pub struct Counts {
    pub variables: usize,
    pub clauses: usize,
    pub numbers: usize,
}

impl Counts {
    // The counts with one block more.
    #[tactic(auto, using(encoding::proofs::Sizes::block_variables_most, encoding::proofs::Sizes::block_clauses_most, encoding::proofs::Sizes::block_numbers_most))]
    fn with_block(self, sizes: Sizes) -> Counts
        requires { Few self }
        ensures { AddedOne sizes.nodes sizes.edges sizes.top self result }
    {
        Counts {
            variables: self.variables + sizes.variables(),
            clauses: self.clauses + sizes.clauses(),
            numbers: self.numbers + sizes.numbers(),
        }
    }
}

// How many levels an atom's block has.
#[tactic(auto, unfolding(plan::specs::Written::levels))]
pub fn levels_of(nodes: usize, atom: Atom) -> usize
    requires { 1 ≤ nodes }
    ensures { result ≡ levels nodes (atom_of atom) }
{
    let most = nodes - 1;
    match atom.kind {
        Kind::Reaches => most,
        Kind::Within => usize::from(atom.bound).min(most),
        Kind::LengthAtMost => 0,
    }
}

// Whether a kind is written out.
fn has_block(kind: Kind) -> bool
    ensures { result ≡ has_block kind }
{
    match kind {
        Kind::Reaches | Kind::Within => true,
        Kind::LengthAtMost => false,
    }
}

// The place, from 0, of the first atom that is not written out.
pub fn first_unwritten(atoms: &[Atom]) -> Option<usize>
    ensures { let unwritten = first_unwritten (atoms_of atoms.now) in
        let count = length (atoms_of atoms.now) in
        MatchOption result (unwritten ≡ count) (λ k. (k < count) × (unwritten ≡ k)) }
{
    atoms.iter().position(|atom| !has_block(atom.kind))
}

// The blocks of the atoms, each into the rest of the buffer behind the one before it.
fn put_blocks(out: &mut [i32], at: usize, tables: &Tables) -> usize
    requires { Room (file_blocks (file_of tables.now)) at out.old }
    ensures { Put (file_blocks (file_of tables.now)) at out.old out.new result }
{
    let edges = tables.edges;
    let nodes = usize::from(tables.plan.nodes);
    let base = usize::from(tables.plan.variables);
    let mut last = base;
    let mut end = at;
    for atom in tables.atoms {
        let top = levels_of(nodes, *atom);
        let shape = Shape {
            edges,
            nodes,
            base: last,
            top,
        };
        end += put_block(&mut out[end..], &shape, *atom);
        let sizes = Sizes {
            nodes,
            edges: edges.len(),
            top,
        };
        last += sizes.variables();
    }
    end
}

// The file's own clauses.
fn put_own(out: &mut [i32], clauses: &[i16]) -> usize
    requires { Room clauses.now 0 out.old }
    ensures { Put clauses.now 0 out.old out.new result }
{
    // No `zip` of `iter_mut`: after it a proof knows how long `out` is, and not what stands in it.
    for (i, literal) in clauses.iter().enumerate() {
        out[i] = i32::from(*literal);
    }
    clauses.len()
}

// How many variables, clauses and numbers the file has when it is written out.
pub fn counts_of(tables: &Tables) -> Counts
    ensures { Counting (file_of tables.now) result }
{
    let nodes = usize::from(tables.plan.nodes);
    let edges = tables.edges.len();
    let mut counts = Counts {
        variables: usize::from(tables.plan.variables),
        clauses: tables.plan.clauses,
        numbers: tables.clauses.len(),
    };
    for atom in tables.atoms {
        let sizes = Sizes {
            nodes,
            edges,
            top: levels_of(nodes, *atom),
        };
        counts = counts.with_block(sizes);
    }
    counts
}

// The file as clauses at the front of `out`, or, where that is too short, the length needed and `out` as it was.
pub fn write_clauses(tables: &Tables, out: &mut [i32]) -> Result<Counts, Short>
    ensures { Writes (file_of tables.now) out.old out.new result }
{
    let counts = counts_of(tables);
    let needed = counts.numbers;
    if out.len() < needed {
        return Err(Short(needed));
    }
    let end = put_own(out, tables.clauses);
    put_blocks(out, end, tables);
    Ok(counts)
}
