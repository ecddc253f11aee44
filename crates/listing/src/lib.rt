// listing: a plan file written out as DIMACS text, whole or in parts. A part's clauses are made level by level in a small table of numbers, and printed
// from there. Every printer prints as far as there is room, so a run over no buffer at all gives the length.
#![tactic(auto)]

mod block;

ghost use Rattle.std.specs.Prelude.{◌≡◌, suc, ◌≤◌, ◌<◌, length, take};
ghost use Rattle.plan.specs.File.{file_of};
ghost use Rattle.plan.specs.Front.{Laid};
ghost use Rattle.plan.specs.Tables.{atoms_of};
ghost use Rattle.plan.specs.Written.{last};
ghost use Rattle.dimacs.specs.Printers.{Lays};
ghost use Rattle.listing.specs.Text.{text, part};
ghost use Rattle.listing.specs.Parts.{Soon, Prints};

use block::print_block;
use clauses::{Shape, Sizes, counts_of, levels_of};
use dimacs::Printer;
use plan::{Short, Tables};

// The longest part: 9 bytes for each number of the largest block, and its first line.
pub const PART: usize = 2251136;

// The last variable before the block of the atom numbered k, from 0.
fn last_before(tables: &Tables, k: usize) -> usize
    requires { k ≤ length (atoms_of tables.now.atoms.now) }
    ensures { let φ = file_of tables.now in result ≡ last φ.nodes φ.edges φ.variables (take k φ.atoms) }
{
    let nodes = usize::from(tables.plan.nodes);
    let edges = tables.edges.len();
    let mut last = usize::from(tables.plan.variables);
    for atom in &tables.atoms[..k] {
        let sizes = Sizes {
            nodes,
            edges,
            top: levels_of(nodes, *atom),
        };
        last += sizes.variables();
    }
    last
}

// The `p cnf` line and the file's own clauses.
fn print_front(printer: &mut Printer, tables: &Tables)
    requires { Soon printer.old.at }
    ensures { Lays (part (file_of tables.now) 0) printer.old printer.new }
{
    let counts = counts_of(tables);
    printer.head(counts.variables as u32, counts.clauses as u32);
    printer.numbers(tables.clauses);
}

// The block of the atom numbered j, from 0, with its first line.
fn print_atom(printer: &mut Printer, tables: &Tables, j: usize)
    requires j_in_bounds { j < length (atoms_of tables.now.atoms.now) }
    requires soon { Soon printer.old.at }
    ensures { Lays (part (file_of tables.now) (suc j)) printer.old printer.new }
{
    let nodes = usize::from(tables.plan.nodes);
    let base = last_before(tables, j);
    let atom = tables.atoms[j];
    let top = levels_of(nodes, atom);
    let shape = Shape {
        edges: tables.edges,
        nodes,
        base,
        top,
    };
    print_block(printer, &shape, atom, j as u32 + 1);
}

// Part k of the text: the front, or the block of the atom of that number, from 1.
fn print_kth(printer: &mut Printer, tables: &Tables, k: usize)
    requires k_in_bounds { k ≤ length (atoms_of tables.now.atoms.now) }
    requires soon { Soon printer.old.at }
    ensures { Lays (part (file_of tables.now) k) printer.old printer.new }
{
    if k == 0 {
        print_front(printer, tables);
    } else {
        print_atom(printer, tables, k - 1);
    }
}

// One part of the text, from the place `at` on, as far as there is room; hands back the place behind what it printed or would have printed.
pub fn print_part(out: &mut [u8], at: usize, tables: &Tables, k: usize) -> usize
    requires k_in_bounds { k ≤ length (atoms_of tables.now.atoms.now) }
    requires soon { Soon at }
    ensures { Laid (part (file_of tables.now) k) at out.old out.new result }
{
    let mut printer = Printer { out, at };
    print_kth(&mut printer, tables, k);
    printer.at
}

// The whole text, as far as there is room; hands back its length.
fn print_text(out: &mut [u8], tables: &Tables) -> usize
    ensures { Laid (text (file_of tables.now)) 0 out.old out.new result }
{
    let mut printer = Printer { out, at: 0 };
    for k in 0..=tables.atoms.len() {
        print_kth(&mut printer, tables, k);
    }
    printer.at
}

// The file as text at the front of `out`, or, where that is too short, the length needed and `out` as it was.
pub fn write_text(tables: &Tables, out: &mut [u8]) -> Result<usize, Short>
    ensures { Prints (file_of tables.now) out.old out.new result }
{
    let needed = print_text(&mut [], tables);
    if out.len() < needed {
        return Err(Short(needed));
    }
    print_text(out, tables);
    Ok(needed)
}
