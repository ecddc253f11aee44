// dimacs: clauses as DIMACS text: rules are read from it, and clauses are printed as it.
#![tactic(auto)]

mod clauses;
mod head;
mod numbers;
mod own;
mod printing;
mod records;
mod words;

ghost use Rattle.std.specs.Prelude.{◌≡◌, List, ◌≤◌, ℤ, length};
ghost use Rattle.plan.specs.ClauseTable.{max_table};
ghost use Rattle.plan.specs.Ranged.{max_variables, max_clauses, max_literals};
ghost use Rattle.dimacs.specs.Reading.{Rule, good, read_rules, rules_of, nothing};
ghost use Rattle.dimacs.specs.Scanning.{Tallied, RulesAre};

use clauses::{Tally, scan};
use head::{Head, head_of};
use own::Own;
use plan::{Plan, Refusal};
pub use printing::Printer;
pub use records::put_records;

// How many clauses and literals of rules stand in the table.
#[derive(Clone, Copy, Debug, PartialEq, Eq)]
pub struct Rules {
    pub clauses: usize,
    pub literals: usize,
}

// Reads a text as rules for a plan: its clauses go to the table, or it is refused. What then stands in the table says nothing.
pub fn read_rules(plan: Plan, text: &[u8], table: &mut [i16]) -> Result<Rules, Refusal>
    requires table_len { length table.old ≡ max_table }
    requires variables_le_max_variables { (plan.variables ≤ max_variables) × (plan.clauses ≤ max_clauses) × (plan.literals ≤ max_literals) }
    ensures { RulesAre (read_rules plan.variables plan.clauses plan.literals text.now) table.new result }
{
    let head = head_of(text)?;
    // Literals that no plan has are not kept: such a text is refused anyhow.
    let room = if head.variables <= u32::from(plan.variables) {
        table.len()
    } else {
        0
    };
    let own = Own {
        clauses: plan.clauses,
        literals: plan.literals,
    };
    let tally = scan(text, head, own, &mut table[..room])?;
    judged(plan, head, tally)
}

// The refusals of a good text, by what was counted in it.
fn judged(plan: Plan, head: Head, tally: Tally) -> Result<Rules, Refusal>
    ensures { (rs : List Rule) (before after : List ℤ) → Tallied plan.clauses plan.literals rs nothing before after tally → (head.variables ≤ plan.variables → length before ≡ max_table) → RulesAre (rules_of plan.variables plan.clauses plan.literals (good head.at head.variables head.count rs)) after result }
{
    if tally.clauses != head.count as usize {
        return Err(Refusal::WrongCount(head.at));
    }
    if head.variables > u32::from(plan.variables) {
        return Err(Refusal::TooManyVariables(head.at));
    }
    if let Some(at) = tally.past {
        return Err(Refusal::TooMany(at));
    }
    Ok(Rules {
        clauses: tally.clauses,
        literals: tally.literals,
    })
}
