// The used part of each table: what a read lends on.
ghost use Rattle.std.specs.Prelude.{◌≡◌, ◌+◌, take};
ghost use Rattle.reader.specs.Ready.{Room};

use crate::Buffers;
use plan::{Atom, Edge, Plan};

impl Buffers {
    pub fn used_edges(&self, plan: Plan) -> &[Edge]
        requires { Room plan }
        ensures { result.now ≡ take plan.edges self.now.edges }
    {
        &self.edges[..plan.edges]
    }

    pub fn used_atoms(&self, plan: Plan) -> &[Atom]
        requires { Room plan }
        ensures { result.now ≡ take plan.atoms self.now.atoms }
    {
        &self.atoms[..plan.atoms]
    }

    pub fn used_clauses(&self, plan: Plan) -> &[i16]
        requires { Room plan }
        ensures { result.now ≡ take (plan.literals + plan.clauses) self.now.clauses }
    {
        &self.clauses[..plan.literals + plan.clauses]
    }
}
