// The text of one block: its first line, its start, its levels and its end.
ghost use Rattle.std.specs.Prelude.{◌++◌, ◌+◌, ◌≤◌};
ghost use Rattle.plan.specs.Ranged.{max_nodes};
ghost use Rattle.plan.specs.Tables.{edges_of};
ghost use Rattle.clauses.specs.Rows.{Fits, Early, start_row, level_row, end_row};
ghost use Rattle.clauses.specs.Shapes.{levels_by, block_by};
ghost use Rattle.dimacs.specs.Printers.{Lays};
ghost use Rattle.dimacs.specs.Printing.{entries, atom_line};
ghost use Rattle.listing.specs.Parts.{Ahead, LevelFits, EndsIn};

use clauses::{Level, Shape, Writer, put_end, put_level, put_start};
use dimacs::Printer;
use plan::{Atom, Edge};

// How many numbers a level has at the most: 14 for each edge and 6 for each node.
const LEVEL: usize = 3968;

// How many numbers a block's start has at the most, 2 for each node, and its end.
const START: usize = 128;

const END: usize = 6;

// The clauses of level 0, whose R start at `first`.
fn print_start(printer: &mut Printer, nodes: usize, source: usize, first: usize)
    requires nodes_le_max_nodes { (nodes ≤ max_nodes) × Early first }
    requires ahead { Ahead printer.old.at (start_row nodes source first) }
    ensures { Lays (entries (start_row nodes source first)) printer.old printer.new }
{
    let mut numbers = [0; START];
    let mut made = Writer {
        out: &mut numbers,
        at: 0,
    };
    put_start(&mut made, nodes, source, first);
    let size = made.at;
    printer.numbers(&numbers[..size]);
}

// The clauses of one level.
fn print_level(printer: &mut Printer, edges: &[Edge], nodes: usize, level: Level)
    requires level_fits { LevelFits (edges_of edges.now) nodes level }
    requires ahead { Ahead printer.old.at (level_row (edges_of edges.now) nodes level) }
    ensures { Lays (entries (level_row (edges_of edges.now) nodes level)) printer.old printer.new }
{
    let mut numbers = [0; LEVEL];
    let mut made = Writer {
        out: &mut numbers,
        at: 0,
    };
    put_level(&mut made, edges, nodes, level);
    let size = made.at;
    printer.numbers(&numbers[..size]);
}

// The clauses of the levels of a block.
fn print_levels(printer: &mut Printer, shape: &Shape)
    requires ends_in { EndsIn (edges_of shape.now.edges.now) shape.now.nodes }
    requires ahead { Ahead printer.old.at (levels_by shape.now) }
    ensures { Lays (entries (levels_by shape.now)) printer.old printer.new }
{
    for i in 0..shape.top {
        let level = shape.level(i);
        print_level(printer, shape.edges, shape.nodes, level);
    }
}

// The two clauses that make the atom's variable a that of the last level, v.
#[tactic(auto, unfolding(clauses::specs::Rows::end_row, clauses::specs::Rows::gives_row))]
fn print_end(printer: &mut Printer, a: usize, v: usize)
    requires fits { Fits a × Fits v }
    requires ahead { Ahead printer.old.at (end_row a v) }
    ensures { Lays (entries (end_row a v)) printer.old printer.new }
{
    let mut numbers = [0; END];
    let mut made = Writer {
        out: &mut numbers,
        at: 0,
    };
    put_end(&mut made, a, v);
    let size = made.at;
    printer.numbers(&numbers[..size]);
}

// The block of the atom with that number.
pub fn print_block(printer: &mut Printer, shape: &Shape, atom: Atom, number: u32)
    requires ends_in { EndsIn (edges_of shape.now.edges.now) shape.now.nodes }
    requires ahead { Ahead (printer.old.at + 40) (block_by shape.now atom) }
    ensures { Lays (atom_line number ++ entries (block_by shape.now atom)) printer.old printer.new }
{
    let target = shape.first(shape.top) + usize::from(atom.to);
    printer.atom_line(number);
    print_start(printer, shape.nodes, usize::from(atom.from), shape.base + 1);
    print_levels(printer, shape);
    print_end(printer, usize::from(atom.variable), target);
}
