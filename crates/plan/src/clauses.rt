// The clause table, clause by clause: each clause's literals, then one 0.
ghost use Rattle.std.specs.Prelude.{◌<◌, length};
ghost use Rattle.plan.specs.ClauseTable.{Ended, End, Begin};

// The place of the 0 of the clause around a place. No `position`: it has a case for no 0, which the end of a table excludes.
pub fn end_of(clauses: &[i16], place: usize) -> usize
    requires ended { Ended clauses.now }
    requires place_in_bounds { place < length clauses.now }
    ensures { End clauses.now place result }
{
    for at in place..clauses.len() {
        if clauses[at] == 0 {
            return at;
        }
    }
    unreachable!()
}

// The place at which the clause around a place begins.
pub fn start_of(clauses: &[i16], place: usize) -> usize
    requires { place < length clauses.now }
    ensures { Begin clauses.now place result }
{
    for at in (1..=place).rev() {
        if clauses[at - 1] == 0 {
            return at;
        }
    }
    0
}
