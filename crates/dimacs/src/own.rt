// What a plan has before a text's rules come to it.
ghost use Rattle.std.specs.Prelude.{◌≤◌};
ghost use Rattle.plan.specs.Ranged.{max_clauses, max_literals};

// A plan's own clauses and literals: a text's stand beside them.
#[derive(Clone, Copy)]
pub struct Own {
    pub clauses: usize,
    pub literals: usize,
    ghost clauses_within: { clauses ≤ max_clauses },
    ghost literals_within: { literals ≤ max_literals },
}
