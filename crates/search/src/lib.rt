// search: the first plan from all open, by closing and branching, with at most so many branchings.
#![tactic(auto)]

ghost use Rattle.std.specs.Prelude.{◌≡◌, List, ◌≤◌, ℤ, length};
ghost use Rattle.plan.specs.File.{file_of};
ghost use Rattle.plan.specs.Meaning.{true_in};
ghost use Rattle.plan.specs.Search.{Assigned, Closes, CloseIs, Lowest};
ghost use Rattle.plan.specs.Tables.{clauses_of};
ghost use Rattle.unit.specs.Clauses.{AllQuiet};
ghost use Rattle.unit.specs.Queue.{Known};
ghost use Rattle.closing.specs.Closed.{closed_of};
ghost use Rattle.search.specs.Report.{front, Reported, Filled, FirstOpen, Begins, Finds};

use closing::{Clash, Prepared};
use plan::{Assignment, Tables};

#[derive(Clone, Copy)]
pub enum Verdict {
    Plan(Assignment),
    Impossible,
    Undecided,
}

// A part of the search: the verdict, and the branchings counted so far.
#[derive(Clone, Copy)]
pub struct Report {
    pub verdict: Verdict,
    pub count: u32,
}

// Closes an assignment in place. `tried` is the literal that was added to a closed set; `None` where nothing is known.
fn close(prepared: &Prepared, a: &mut Assignment, tried: Option<i16>) -> Result<(), Clash>
    requires assigned { Assigned prepared.now.tables.plan.variables (front prepared.now a.old) }
    requires known { Known prepared.now.tables.clauses.now (front prepared.now a.old) tried }
    ensures { CloseIs (file_of prepared.now.tables) (front prepared.now a.old) (closed_of result (front prepared.now a.new)) }
{
    let n = usize::from(prepared.tables.plan.variables);
    closing::close_after(prepared, tried, &mut a.values[..n])
}

// The lowest open variable's place from `from` on.
fn open_place(values: &[i8], from: usize) -> Option<usize>
    ensures { FirstOpen values.now from result }
{
    (from..values.len()).find(|place| values[*place] == 0)
}

// Closes, and finds a clash, a plan, or the lowest open variable to branch on. The places below `from` are assigned.
#[cycle(branch_settle)]
fn settle(
    prepared: &Prepared,
    mut a: Assignment,
    tried: Option<i16>,
    from: usize,
    budget: u32,
    count: u32,
) -> Report
    requires begins { Begins prepared.now.tables.plan.variables (front prepared.now a) budget count }
    requires known { Known prepared.now.tables.clauses.now (front prepared.now a) tried }
    requires from_le_variables { from ≤ prepared.now.tables.plan.variables }
    requires filled { Filled (front prepared.now a) from }
    ensures { Reported (file_of prepared.now.tables) (front prepared.now a) budget count result.verdict result.count }
{
    let Ok(()) = close(prepared, &mut a, tried) else {
        return Report {
            verdict: Verdict::Impossible,
            count,
        };
    };
    let n = usize::from(prepared.tables.plan.variables);
    match open_place(&a.values[..n], from) {
        Some(place) => branch(prepared, a, place, budget, count),
        None => Report {
            verdict: Verdict::Plan(a),
            count,
        },
    }
}

// Tries the variable at `place` off, and on only if off held no plan.
#[cycle(branch_settle)]
fn branch(prepared: &Prepared, a: Assignment, place: usize, budget: u32, count: u32) -> Report
    requires begins { Begins prepared.now.tables.plan.variables (front prepared.now a) budget count }
    requires all_quiet { AllQuiet (true_in (front prepared.now a)) (clauses_of prepared.now.tables.clauses.now) }
    requires lowest { Lowest (front prepared.now a) place }
    ensures { (b : List ℤ) → Closes (file_of prepared.now.tables) b (front prepared.now a) → Reported (file_of prepared.now.tables) b budget count result.verdict result.count }
{
    if count == budget {
        return Report {
            verdict: Verdict::Undecided,
            count,
        };
    }
    let first = plan::literal_of(place + 1, false);
    let then = plan::literal_of(place + 1, true);
    let tried = settle(
        prepared,
        a.with(first),
        Some(first),
        place + 1,
        budget,
        count + 1,
    );
    match tried.verdict {
        Verdict::Impossible => settle(
            prepared,
            a.with(then),
            Some(then),
            place + 1,
            budget,
            tried.count,
        ),
        _ => tried,
    }
}

// The answer, with the branchings counted.
#[derive(Clone, Copy, Debug, PartialEq, Eq)]
pub enum Found {
    Plan(u32),
    Impossible(u32),
    Undecided(u32),
}

// Searches for the first plan from all open, with at most `budget` branchings. The result is written for a plan only.
pub fn search(tables: &Tables, budget: u32, res: &mut [i8]) -> Found
    requires { length res.old ≡ tables.now.plan.variables }
    ensures { Finds (file_of tables.now) budget res.old res.new result }
{
    let index = index::index_of(tables.clauses);
    let prepared = Prepared {
        tables: *tables,
        index: &index,
        lengths: walk::length_atoms(tables.atoms),
    };
    let Report { verdict, count } = settle(&prepared, Assignment::all_open(), None, 0, budget, 0);
    match verdict {
        Verdict::Plan(held) => {
            held.write_to(res);
            Found::Plan(count)
        }
        Verdict::Impossible => Found::Impossible(count),
        Verdict::Undecided => Found::Undecided(count),
    }
}
