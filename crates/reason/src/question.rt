// What is asked: an atom over the edges, under a partial assignment.
ghost use Rattle.std.specs.Prelude.{◌≡◌, length};
ghost use Rattle.plan.specs.Meaning.{cost_of};
ghost use Rattle.plan.specs.Ranged.{max_nodes, EndsFit};
ghost use Rattle.plan.specs.Tables.{edges_of, edge_of, atom_of};
ghost use Rattle.walk.specs.Walking.{Settling};
ghost use Rattle.reason.specs.Marks.{Fits};

use plan::{Atom, Edge, Side};
use walk::{Distances, Graph};

#[derive(Clone, Copy)]
pub struct Question<'a> {
    pub edges: &'a [Edge],
    pub assignment: &'a [i8],
    pub atom: Atom,
    ghost fits: { Fits (edges_of edges.now) assignment.now },
    ghost ends: { EndsFit max_nodes (length assignment.now) atom.from atom.to atom.variable },
}

impl Question<'_> {
    // The distances from the atom's source in the graph by which it would hold, or in that by which it would fail.
    pub fn distances(&self, holds: bool) -> Distances
        ensures { Settling (edges_of self.now.edges.now) self.now.assignment.now (atom_of self.now.atom) holds result }
    {
        let graph = Graph {
            edges: self.edges,
            values: self.assignment,
            side: Side::settling(holds),
        };
        walk::distances_by(
            self.atom.kind.measure(),
            &graph,
            usize::from(self.atom.from),
        )
    }

    // What an edge adds to a path, as the atom counts it.
    pub fn cost(&self, edge: Edge) -> u64
        ensures { result ≡ cost_of self.now.atom.kind (edge_of edge) }
    {
        edge.cost(self.atom.kind.measure())
    }
}
