// unit: all that the clauses give, by a queue of the literals whose clauses are still to be looked at.
#![tactic(auto)]

ghost use Rattle.std.specs.Prelude.{◌≡◌, ◌+◌, ◌<◌, ◌≤◌, pos, length, replicate, set};
ghost use Rattle.plan.specs.Ranged.{max_variables};
ghost use Rattle.plan.specs.Search.{Assigned, opens};
ghost use Rattle.unit.specs.Clauses.{Ready, Stop, SaysAt, Propagated};
ghost use Rattle.unit.specs.Queue.{Applied, Pending, NoClause, Follows, Known, Above, Since, Queued};

use index::IndexedClauses;
use plan::Assignment;

// Both signs of a variable are given, or all of a clause is false.
#[derive(Clone, Copy, Debug, PartialEq, Eq)]
pub struct Clash;

// The literals that were set, in that order: those in the first `end` places. No variable is set twice, so there is room for all. (No Vec:
// no heap.)
#[derive(Drop)]
struct Queue {
    literals: [i16; Assignment::MAX],
    end: usize,
}

impl Queue {
    fn new() -> Queue
        ensures literals { result.literals ≡ replicate max_variables (pos 0) }
        ensures end { result.end ≡ 0 }
    {
        Queue {
            literals: [0; Assignment::MAX],
            end: 0,
        }
    }

    fn push(&mut self, literal: i16)
        requires { self.old.end < max_variables }
        ensures literals { self.new.literals ≡ set self.old.literals self.old.end literal }
        ensures end { self.new.end ≡ self.old.end + 1 }
    {
        self.literals[self.end] = literal;
        self.end += 1;
    }
}

// That the values fit the clauses, `Ready`, stays a clause below: the values are lent to be changed, and a type would have to show it anew at each store.

// The first place from `from` on at which the look at a clause stops: at its 0, and at a literal that is neither false nor the one passed over.
fn stop_of(clauses: &[i16], from: usize, passed: i16, values: &[i8]) -> usize
    requires ready { Ready clauses.now values.now }
    requires from_in_bounds { from < length clauses.now }
    ensures { Stop clauses.now values.now from passed result }
{
    for at in from..clauses.len() {
        let literal = clauses[at];
        if literal == 0 {
            return at;
        }
        if literal != passed && plan::value_of(values, literal) != -1 {
            return at;
        }
    }
    // The table's last number is a 0.
    unreachable!()
}

// Looks at the clause that begins at `at`: what it gives, if anything. A repeated literal is passed over, so it counts once.
fn look_at(clauses: &[i16], at: usize, values: &[i8]) -> Result<Option<i16>, Clash>
    requires ready { Ready clauses.now values.now }
    requires at_in_bounds { at < length clauses.now }
    ensures { SaysAt clauses.now at values.now result }
{
    let first = stop_of(clauses, at, 0, values);
    let literal = clauses[first];
    if literal == 0 {
        return Err(Clash);
    }
    if plan::value_of(values, literal) == 1 {
        return Ok(None);
    }
    let second = stop_of(clauses, first + 1, literal, values);
    if clauses[second] != 0 {
        return Ok(None);
    }
    Ok(Some(literal))
}

// Looks at the clause that begins at `at`, and adds what it gives to the assignment and to the queue.
fn apply(clauses: &[i16], at: usize, values: &mut [i8], queue: &mut Queue) -> Result<(), Clash>
    requires ready { Ready clauses.now values.old }
    requires at_in_bounds { at < length clauses.now }
    requires values_bound { queue.old.end + opens values.old ≤ max_variables }
    ensures { Applied clauses.now at values.old values.new queue.old.literals queue.new.literals queue.old.end queue.new.end result }
{
    if let Some(literal) = look_at(clauses, at, values)? {
        plan::put(values, literal);
        queue.push(literal);
    }
    Ok(())
}

// Looks at every clause once.
fn pass(clauses: &[i16], values: &mut [i8], queue: &mut Queue) -> Result<(), Clash>
    requires ready { Ready clauses.now values.old }
    requires queue_empty { queue.old.end ≡ 0 }
    ensures { Follows clauses.now values.old values.new queue.new.literals 0 queue.new.end result }
{
    let mut at = 0;
    // A step is as long as the clause.
    while at < clauses.len() {
        apply(clauses, at, values, queue)?;
        at = plan::clauses::end_of(clauses, at) + 1;
    }
    Ok(())
}

// Looks at every clause that holds the opposite of the literal at the queue's `head`.
fn follow(
    clauses: &IndexedClauses,
    head: usize,
    values: &mut [i8],
    queue: &mut Queue,
) -> Result<(), Clash>
    requires ready { Ready clauses.now.table.now values.old }
    requires head_lt_end { head < queue.old.end }
    requires pending { Pending clauses.now.table.now NoClause values.old queue.old.literals head queue.old.end }
    ensures { Follows clauses.now.table.now values.old values.new queue.new.literals (head + 1) queue.new.end result }
{
    let mut place = clauses
        .index
        .first_place(plan::opposite(queue.literals[head]));
    // The index leads from place to place, and behind the last one to the table's length.
    while place < clauses.table.len() {
        let at = plan::clauses::start_of(clauses.table, place);
        apply(clauses.table, at, values, queue)?;
        place = clauses.index.next_place(place);
    }
    Ok(())
}

// Follows every literal of the queue.
fn follow_all(clauses: &IndexedClauses, values: &mut [i8], queue: &mut Queue) -> Result<(), Clash>
    requires ready { Ready clauses.now.table.now values.old }
    requires pending { Pending clauses.now.table.now NoClause values.old queue.old.literals 0 queue.old.end }
    ensures { Propagated clauses.now.table.now values.old values.new result }
{
    let mut head = 0;
    // The queue grows while it is followed.
    while head < queue.end {
        follow(clauses, head, values, queue)?;
        head += 1;
    }
    Ok(())
}

// Adds all that the clauses give. `tried` is the literal that was added to a closed set; `None` where nothing is known.
pub fn propagate(
    clauses: &IndexedClauses,
    tried: Option<i16>,
    values: &mut [i8],
) -> Result<(), Clash>
    requires ready { Ready clauses.now.table.now values.old }
    requires known { Known clauses.now.table.now values.old tried }
    ensures { Propagated clauses.now.table.now values.old values.new result }
{
    let mut queue = Queue::new();
    match tried {
        Some(tried) => queue.push(tried),
        None => pass(clauses.table, values, &mut queue)?,
    }
    follow_all(clauses, values, &mut queue)
}

// Queues the literals that `values` has and `before` has not.
fn queue_changes(before: &[i8; Assignment::MAX], values: &[i8]) -> Queue
    requires assigned { Assigned (length values.now) values.now }
    requires values_len_bound { length values.now ≤ max_variables }
    requires above { Above before.now values.now }
    ensures { Queued before.now values.now result.literals result.end }
{
    let mut queue = Queue::new();
    for (i, value) in values.iter().enumerate() {
        if *value != before[i] {
            queue.push(plan::literal_of(i + 1, *value > 0));
        }
    }
    queue
}

// Adds all that the clauses give behind an assignment in which every clause was quiet.
pub fn propagate_changes(
    clauses: &IndexedClauses,
    before: &[i8; Assignment::MAX],
    values: &mut [i8],
) -> Result<(), Clash>
    requires ready { Ready clauses.now.table.now values.old }
    requires since { Since clauses.now.table.now before.now values.old }
    ensures { Propagated clauses.now.table.now values.old values.new result }
{
    let mut queue = queue_changes(before, values);
    follow_all(clauses, values, &mut queue)
}
