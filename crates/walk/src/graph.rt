// A graph of a partial assignment.
ghost use Rattle.std.specs.Prelude.{◌≡◌, ◌≤◌, length};
ghost use Rattle.plan.specs.Meaning as meaning;
ghost use Rattle.plan.specs.Meaning.{true_in, graph_of};
ghost use Rattle.plan.specs.Tables.{edges_of, edge_of};
ghost use Rattle.walk.specs.Walking.{Inside, Placed};

use plan::{Edge, Side, is_set_to};

// Of these edges those that are on, or those that are not off.
#[derive(Clone, Copy)]
pub struct Graph<'a> {
    pub edges: &'a [Edge],
    pub values: &'a [i8],
    pub side: Side,
    ghost inside: { Inside (edges_of edges.now) },
    ghost placed: { Placed (edges_of edges.now) (length values.now) },
}

// Whether an edge is in the graph: on in the under graph, not off in the over graph.
pub fn is_present(values: &[i8], edge: Edge, side: Side) -> bool
    requires le_variable { 1 ≤ edge.variable }
    requires variable_in_bounds { edge.variable ≤ length values.now }
    ensures { result ≡ graph_of side (true_in values.now) (edge_of edge) }
{
    admits(values, edge.variable, side)
}

// The same of the edge's variable, so that a loop over the edges reads no more of them than it needs. One comparison serves both graphs: such a loop finds
// out before its first turn with what to compare.
pub(crate) fn admits(values: &[i8], variable: u16, side: Side) -> bool
    requires le_variable { 1 ≤ variable }
    requires variable_in_bounds { variable ≤ length values.now }
    ensures { (e : meaning.Edge) → e.variable ≡ variable → result ≡ graph_of side (true_in values.now) e }
{
    let under = side == Side::Under;
    is_set_to(values, variable, under) == under
}
