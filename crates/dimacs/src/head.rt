// The `p` line: exactly the four words `p cnf V C`.
ghost use Rattle.std.specs.Prelude.{◌≡◌, ◌≤◌, length, false};
ghost use Rattle.plan.specs.declared.refusal.Refusal.TheVariants.{BadText as Refusal·BadText};
ghost use Rattle.dimacs.specs.Words.{between};
ghost use Rattle.dimacs.specs.Reading.{behind, variables, read_text};
ghost use Rattle.dimacs.specs.Scanning.{left, FieldIs, CountIs, HeadIs};

use crate::numbers::number_in;
use crate::words::{Word, next_word};
use plan::Refusal;

// The offset of the word `p`, the line's two numbers, and where its last word ends.
#[derive(Clone, Copy)]
pub struct Head {
    pub at: usize,
    pub variables: u32,
    pub count: u32,
    pub end: usize,
}

// The offset at which a text is bad.
#[derive(Clone, Copy)]
pub struct BadText {
    pub at: usize,
}

impl From<BadText> for Refusal {
    ghost from_gives = { λ bad refusal. refusal ≡ Refusal·BadText bad.at };

    fn from(bad: BadText) -> Refusal {
        Refusal::BadText(bad.at)
    }
}

// The next word of the line.
fn field_at(text: &[u8], from: usize) -> Result<Word, BadText>
    requires { from ≤ length text.now }
    ensures { FieldIs text.now from result }
{
    match next_word(text, from, false) {
        None => Err(BadText { at: text.len() }),
        Some(word) if word.leads => Err(BadText { at: word.start }),
        Some(word) => Ok(word),
    }
}

// The next word of the line, as a number not below 0, and where the word ends.
fn count_at(text: &[u8], from: usize) -> Result<(u32, usize), BadText>
    requires { from ≤ length text.now }
    ensures { CountIs text.now from result }
{
    let Word { start, end, .. } = field_at(text, from)?;
    match number_in(&text[start..end]) {
        Some(number) if number >= 0 => Ok((number.unsigned_abs(), end)),
        _ => Err(BadText { at: start }),
    }
}

// Nothing stands behind the line's numbers.
#[tactic(auto, unfolding(crate::specs::Reading::behind))]
fn ended(text: &[u8], head: Head) -> Result<Head, BadText>
    requires { head.end ≤ length text.now }
    ensures { HeadIs text.now (behind (length text.now) head.at head.variables head.count (left (between false) text.now head.end)) result }
{
    match next_word(text, head.end, false) {
        Some(word) if !word.leads => Err(BadText { at: word.start }),
        _ => Ok(head),
    }
}

// The line's numbers, behind `p cnf`.
fn counts_at(text: &[u8], at: usize, from: usize) -> Result<Head, BadText>
    requires { from ≤ length text.now }
    ensures { HeadIs text.now (variables (length text.now) at (left (between false) text.now from)) result }
{
    let (variables, next) = count_at(text, from)?;
    let (count, end) = count_at(text, next)?;
    let head = Head {
        at,
        variables,
        count,
        end,
    };
    ended(text, head)
}

// The whole line.
#[tactic(auto, using(crate::proofs::Comparing::same_is), unfolding(crate::specs::Reading::read_text, crate::specs::Reading::whole, crate::specs::Reading::cnf))]
pub fn head_of(text: &[u8]) -> Result<Head, BadText>
    ensures { HeadIs text.now (read_text text.now) result }
{
    let Some(problem) = next_word(text, 0, true) else {
        return Err(BadText { at: text.len() });
    };
    if &text[problem.start..problem.end] != b"p".as_slice() {
        return Err(BadText { at: problem.start });
    }
    let format = field_at(text, problem.end)?;
    if &text[format.start..format.end] != b"cnf".as_slice() {
        return Err(BadText { at: format.start });
    }
    counts_at(text, problem.start, format.end)
}
