// The path by which an atom holds, read back from its target.
ghost use Rattle.std.specs.Prelude.{true, false, ◌≤◌, T, replicate};
ghost use Rattle.plan.specs.Tables.{edges_of, edge_of, atom_of};
ghost use Rattle.walk.specs.Walking.{reached_in, distance_in, Settling};
ghost use Rattle.reason.specs.Marks.{EdgeFits, Away, LeadsNearer, FirstNearer, PathMarked};

use crate::marks::Marks;
use crate::question::Question;
use plan::{Edge, Side};
use walk::Distances;

// An atom, and the distances from its source in the graph by which it holds. (`Cut` is a struct of its own, since a struct with a ghost field has no `bool`
// const parameter yet.)
#[derive(Clone, Copy)]
pub struct Path<'a> {
    pub question: Question<'a>,
    pub distances: &'a Distances,
    ghost table: { ∥ Settling (edges_of question.edges.now) question.assignment.now (atom_of question.atom) true distances.now ∥₁ },
}

impl Path<'_> {
    // Whether an edge leads to `node`, which is `count` away, from a node that is nearer by what the edge costs.
    fn leads_nearer(&self, edge: Edge, node: usize, count: u64) -> bool
        requires { EdgeFits self.now.question.assignment.now (edge_of edge) }
        ensures { let q = self.now.question in LeadsNearer q.assignment.now (atom_of q.atom) (edge_of edge) self.now.distances.now node count result }
    {
        if usize::from(edge.to) != node {
            return false;
        }
        if !walk::is_present(self.question.assignment, edge, Side::settling(true)) {
            return false;
        }
        let from = usize::from(edge.from);
        if !self.distances.is_reached(from) {
            return false;
        }
        let near = self.distances.distance(from);
        near <= count && count - near == self.question.cost(edge)
    }

    // The smallest-numbered edge that leads to `node`, which is `count` away, from a node that is nearer by what the edge costs.
    fn nearer_edge(&self, node: usize, count: u64) -> Edge
        requires away { let q = self.now.question in Away (edges_of q.edges.now) q.assignment.now (atom_of q.atom) node count }
        requires le_count { 1 ≤ count }
        ensures { let q = self.now.question in FirstNearer (edges_of q.edges.now) q.assignment.now (atom_of q.atom) node count (edge_of result) }
    {
        for edge in self.question.edges {
            if self.leads_nearer(*edge, node, count) {
                return *edge;
            }
        }
        unreachable!()
    }

    // Marks the variables of the path to `node`, which is `count` from the source, read back one edge at a time: each call is that much nearer.
    fn mark_path(&self, node: usize, count: u64, marks: &mut Marks)
        requires { let q = self.now.question in Away (edges_of q.edges.now) q.assignment.now (atom_of q.atom) node count }
        ensures { let q = self.now.question in PathMarked (edges_of q.edges.now) q.assignment.now (atom_of q.atom) node count marks.old.marked marks.new.marked }
    {
        if count == 0 {
            return;
        }
        let edge = self.nearer_edge(node, count);
        marks.mark(edge.variable);
        self.mark_path(
            usize::from(edge.from),
            count - self.question.cost(edge),
            marks,
        );
    }

    // Marks the path to the target.
    pub fn marks(&self) -> Marks
        requires { T (reached_in self.now.distances.now self.now.question.atom.to) }
        ensures { let q = self.now.question in PathMarked (edges_of q.edges.now) q.assignment.now (atom_of q.atom) q.atom.to (distance_in self.now.distances.now q.atom.to) (replicate 512 false) result.marked }
    {
        let mut marks = Marks::none();
        let to = usize::from(self.question.atom.to);
        self.mark_path(to, self.distances.distance(to), &mut marks);
        marks
    }
}
