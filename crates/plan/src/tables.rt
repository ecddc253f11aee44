// The tables of a plan file that was read, each cut to its used part: what one crate lends on to the next.
ghost use Rattle.plan.specs.LentOnce.{lent_once};
ghost use Rattle.plan.specs.Tables.{Lent};

use crate::{Atom, Edge, Plan};

#[derive(Clone, Copy)]
pub struct Tables<'a> {
    pub plan: Plan,
    pub edges: &'a [Edge],
    pub atoms: &'a [Atom],
    pub clauses: &'a [i16],
    ghost lent: { Lent plan edges.now atoms.now clauses.now } by { lent_once plan edges.now atoms.now clauses.now },
}
