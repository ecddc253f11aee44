// The clauses of one edge and of one node, of which a level is made.
ghost use Rattle.std.specs.Prelude.{◌≡◌, ◌≤◌, eqb, length};
ghost use Rattle.plan.specs.Ranged.{max_edges};
ghost use Rattle.plan.specs.Tables.{edge_of, edges_of};
ghost use Rattle.clauses.specs.Appending.{RoomFor, Appends};
ghost use Rattle.clauses.specs.Rows.{Fits, Early, edge_row, literal_row, into_row, literals_row, intos_row, node_row};

use crate::writer::Writer;
use plan::Edge;

// The three clauses that make an edge's T, t, both its variable and the R of its start, on a level whose first R is `first`.
#[tactic(auto, unfolding(crate::specs::Rows::edge_row, crate::specs::Rows::and_row, crate::specs::Rows::gives_row))]
pub fn put_edge(out: &mut Writer, edge: Edge, t: usize, first: usize)
    requires room { RoomFor (edge_row (edge_of edge) t first) out.old }
    requires low { Fits t × Early first }
    ensures { Appends (edge_row (edge_of edge) t first) out.old out.new }
{
    let x = usize::from(edge.variable);
    let r = first + usize::from(edge.from);
    out.gives(t, x);
    out.gives(t, r);
    out.off(x);
    out.off(r);
    out.on(t);
    out.zero();
}

// Whether the edge runs into w.
fn enters(edge: Edge, w: usize) -> bool
    ensures { result ≡ eqb w (edge_of edge).to }
{
    w == usize::from(edge.to)
}

// The literal t, if the edge runs into w.
#[tactic(auto, unfolding(crate::specs::Rows::literal_row))]
fn put_literal(out: &mut Writer, edge: Edge, w: usize, t: usize)
    requires room { RoomFor (literal_row w (edge_of edge) t) out.old }
    requires fits { Fits t }
    ensures { Appends (literal_row w (edge_of edge) t) out.old out.new }
{
    if enters(edge, w) {
        out.on(t);
    }
}

// The T of each edge into w; the edges' T start at `first`. The loop stands again in `put_intos`: one over a closure would need what the closure promises of
// the writer, which is longer than the loop.
fn put_literals(out: &mut Writer, edges: &[Edge], first: usize, w: usize)
    requires room { RoomFor (literals_row (edges_of edges.now) first w) out.old }
    requires edges_len_bound { (length (edges_of edges.now) ≤ max_edges) × Early first }
    ensures { Appends (literals_row (edges_of edges.now) first w) out.old out.new }
{
    for (k, edge) in edges.iter().enumerate() {
        put_literal(out, *edge, w, first + k);
    }
}

// The clause (-t, q), if the edge runs into w.
#[tactic(auto, unfolding(crate::specs::Rows::into_row))]
fn put_into(out: &mut Writer, edge: Edge, w: usize, t: usize, q: usize)
    requires room { RoomFor (into_row w (edge_of edge) t q) out.old }
    requires fits { Fits t × Fits q }
    ensures { Appends (into_row w (edge_of edge) t q) out.old out.new }
{
    if enters(edge, w) {
        out.gives(t, q);
    }
}

// The clause (-T, q) of each edge into w; the edges' T start at `first`.
fn put_intos(out: &mut Writer, edges: &[Edge], first: usize, q: usize, w: usize)
    requires room { RoomFor (intos_row (edges_of edges.now) first q w) out.old }
    requires edges_len_bound { (length (edges_of edges.now) ≤ max_edges) × Early first × Fits q }
    ensures { Appends (intos_row (edges_of edges.now) first q w) out.old out.new }
{
    for (k, edge) in edges.iter().enumerate() {
        put_into(out, *edge, w, first + k, q);
    }
}

// The clauses of node w, whose R is r on this level and q on the next.
#[tactic(auto, using(crate::proofs::Rows::node_size), unfolding(crate::specs::Rows::gives_row))]
pub fn put_node(out: &mut Writer, edges: &[Edge], first: usize, r: usize, q: usize, w: usize)
    requires room { RoomFor (node_row (edges_of edges.now) first r q w) out.old }
    requires edges_len_bound { (length (edges_of edges.now) ≤ max_edges) × Early first × Fits r × Fits q }
    ensures { Appends (node_row (edges_of edges.now) first r q w) out.old out.new }
{
    out.off(q);
    out.on(r);
    put_literals(out, edges, first, w);
    out.zero();
    out.gives(r, q);
    put_intos(out, edges, first, q, w);
}
