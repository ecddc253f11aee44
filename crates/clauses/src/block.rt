// One block: its start, its levels and its end.
ghost use Rattle.std.specs.Prelude.{◌≡◌, ◌≤◌, ◌<◌};
ghost use Rattle.plan.specs.Ranged.{max_nodes};
ghost use Rattle.plan.specs.Tables.{edges_of};
ghost use Rattle.plan.specs.Front.{Room, Put};
ghost use Rattle.clauses.specs.Appending.{RoomFor, Appends};
ghost use Rattle.clauses.specs.Rows.{Fits, Early, alone_row, end_row, edges_row, nodes_row, level_row, start_row, Low};
ghost use Rattle.clauses.specs.Shapes.{first_by, level_by, levels_by, block_by};

use crate::parts::{put_edge, put_node};
use crate::shape::Shape;
use crate::writer::Writer;
use plan::{Atom, Edge};

// The first numbers of a level of a block: those of its R, of its T, and of the next level's R.
#[derive(Clone, Copy)]
pub struct Level {
    pub nodes: usize,
    pub edges: usize,
    pub next: usize,
}

impl Shape<'_> {
    // The first number of level i.
    pub fn first(&self, i: usize) -> usize
        requires { i ≤ self.now.top }
        ensures { result ≡ first_by self.now i }
    {
        self.base + 1 + i * (self.nodes + self.edges.len())
    }

    // The numbers of level i.
    pub fn level(&self, i: usize) -> Level
        requires { i < self.now.top }
        ensures { result ≡ level_by self.now i }
    {
        let first = self.first(i);
        Level {
            nodes: first,
            edges: first + self.nodes,
            next: first + (self.nodes + self.edges.len()),
        }
    }
}

// The clauses of the edges of one level.
fn put_edges(out: &mut Writer, edges: &[Edge], level: Level)
    requires room { RoomFor (edges_row (edges_of edges.now) level) out.old }
    requires low { Low (edges_of edges.now) level }
    ensures { Appends (edges_row (edges_of edges.now) level) out.old out.new }
{
    for (k, edge) in edges.iter().enumerate() {
        put_edge(out, *edge, level.edges + k, level.nodes);
    }
}

// The clauses of the nodes of one level.
fn put_nodes(out: &mut Writer, edges: &[Edge], nodes: usize, level: Level)
    requires room { RoomFor (nodes_row (edges_of edges.now) nodes level) out.old }
    requires low { Low (edges_of edges.now) level }
    requires nodes_le_max_nodes { nodes ≤ max_nodes }
    ensures { Appends (nodes_row (edges_of edges.now) nodes level) out.old out.new }
{
    for w in 0..nodes {
        put_node(out, edges, level.edges, level.nodes + w, level.next + w, w);
    }
}

// The clauses of one level. It asks nothing of any other: a `Shape`, which has its base and top, would ask more of callers.
pub fn put_level(out: &mut Writer, edges: &[Edge], nodes: usize, level: Level)
    requires room { RoomFor (level_row (edges_of edges.now) nodes level) out.old }
    requires low { Low (edges_of edges.now) level }
    requires nodes_le_max_nodes { nodes ≤ max_nodes }
    ensures { Appends (level_row (edges_of edges.now) nodes level) out.old out.new }
{
    put_edges(out, edges, level);
    put_nodes(out, edges, nodes, level);
}

// The clauses of the levels of a block.
fn put_levels(out: &mut Writer, shape: &Shape)
    requires { RoomFor (levels_by shape.now) out.old }
    ensures { Appends (levels_by shape.now) out.old out.new }
{
    for i in 0..shape.top {
        let level = shape.level(i);
        put_level(out, shape.edges, shape.nodes, level);
    }
}

// The variable alone, or its opposite where w is not the source.
#[tactic(auto, unfolding(crate::specs::Rows::alone_row))]
fn put_alone(out: &mut Writer, w: usize, source: usize, variable: usize)
    requires room { RoomFor (alone_row w source variable) out.old }
    requires fits { Fits variable }
    ensures { Appends (alone_row w source variable) out.old out.new }
{
    if w == source {
        out.on(variable);
    } else {
        out.off(variable);
    }
    out.zero();
}

// The clauses of level 0, whose R start at `first`.
pub fn put_start(out: &mut Writer, nodes: usize, source: usize, first: usize)
    requires room { RoomFor (start_row nodes source first) out.old }
    requires nodes_le_max_nodes { (nodes ≤ max_nodes) × Early first }
    ensures { Appends (start_row nodes source first) out.old out.new }
{
    for w in 0..nodes {
        put_alone(out, w, source, first + w);
    }
}

// The two clauses that make the atom's variable a that of the last level, v.
#[tactic(auto, unfolding(crate::specs::Rows::end_row, crate::specs::Rows::gives_row))]
pub fn put_end(out: &mut Writer, a: usize, v: usize)
    requires room { RoomFor (end_row a v) out.old }
    requires fits { Fits a × Fits v }
    ensures { Appends (end_row a v) out.old out.new }
{
    out.gives(a, v);
    out.on(a);
    out.off(v);
    out.zero();
}

// One block, at the front of `out`; hands back the place behind it.
pub fn put_block(out: &mut [i32], shape: &Shape, atom: Atom) -> usize
    requires { Room (block_by shape.now atom) 0 out.old }
    ensures { Put (block_by shape.now atom) 0 out.old out.new result }
{
    let target = shape.first(shape.top) + usize::from(atom.to);
    let mut writer = Writer { out, at: 0 };
    put_start(
        &mut writer,
        shape.nodes,
        usize::from(atom.from),
        shape.base + 1,
    );
    put_levels(&mut writer, shape);
    put_end(&mut writer, usize::from(atom.variable), target);
    writer.at
}
