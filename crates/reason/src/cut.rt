// The cut by which an atom fails.
ghost use Rattle.std.specs.Prelude.{◌↔◌, ◌+◌, ◌<◌, T, false};
ghost use Rattle.plan.specs.Reason.{LeavesAt, EndsBeyond};
ghost use Rattle.plan.specs.Tables.{edges_of, edge_of, atom_of};
ghost use Rattle.walk.specs.Walking.{Settling};
ghost use Rattle.reason.specs.Marks.{EdgeFits, Crosses, MarksCut};

use crate::marks::Marks;
use crate::question::Question;
use plan::{Edge, Kind, Side};
use walk::Distances;

// Whether an edge that starts at this distance is left in time.
fn leaves_at(kind: Kind, bound: u16, near: u64) -> bool
    ensures { T result ↔ LeavesAt kind bound near }
{
    match kind {
        Kind::Reaches => true,
        Kind::Within | Kind::LengthAtMost => near < u64::from(bound),
    }
}

// Whether a node at the distance `far` is beyond an edge that starts at the distance `near` and costs so much.
fn ends_beyond(kind: Kind, near: u64, cost: u64, far: u64) -> bool
    ensures { T result ↔ EndsBeyond kind (near + cost) far }
{
    match kind {
        Kind::Reaches => false,
        // The sum might not fit.
        Kind::Within | Kind::LengthAtMost => near < far && cost < far - near,
    }
}

// An atom, and the distances from its source in the graph by which it fails.
#[derive(Clone, Copy)]
pub struct Cut<'a> {
    pub question: Question<'a>,
    pub distances: &'a Distances,
    ghost table: { ∥ Settling (edges_of question.edges.now) question.assignment.now (atom_of question.atom) false distances.now ∥₁ },
}

impl Cut<'_> {
    // Whether an edge is off and leads across.
    fn crosses(&self, edge: Edge) -> bool
        requires { EdgeFits self.now.question.assignment.now (edge_of edge) }
        ensures { let q = self.now.question in Crosses q.assignment.now (atom_of q.atom) (edge_of edge) self.now.distances.now result }
    {
        let kind = self.question.atom.kind;
        if walk::is_present(self.question.assignment, edge, Side::Over) {
            return false;
        }
        let from = usize::from(edge.from);
        if !self.distances.is_reached(from) {
            return false;
        }
        let near = self.distances.distance(from);
        if !leaves_at(kind, self.question.atom.bound, near) {
            return false;
        }
        let to = usize::from(edge.to);
        if !self.distances.is_reached(to) {
            return true;
        }
        ends_beyond(
            kind,
            near,
            self.question.cost(edge),
            self.distances.distance(to),
        )
    }

    // Marks the variables of the off edges that lead across.
    pub fn marks(&self) -> Marks
        ensures { let q = self.now.question in MarksCut (edges_of q.edges.now) q.assignment.now (atom_of q.atom) result.marked }
    {
        let mut marks = Marks::none();
        for edge in self.question.edges {
            if self.crosses(*edge) {
                marks.mark(edge.variable);
            }
        }
        marks
    }
}
