// The clauses behind the `p` line: counted, and kept in a table as far as it has room.
ghost use Rattle.std.specs.Prelude.{◌≡◌, false, ◌&&◌, List, [], ◌∷◌, ◌++◌, ℕ, ◌+◌, ◌≤◌, ◌<◌, ltb, leb, ℤ, pos, nat_abs, length};
ghost use Rattle.plan.specs.Front.{Laid};
ghost use Rattle.plan.specs.Ranged.{max_variables, max_clauses, max_literals};
ghost use Rattle.dimacs.specs.Words.{between};
ghost use Rattle.dimacs.specs.Reading.{Rule, nothing, first_word, longer, ended_at, taken, first_over, clauses as Reading·clauses};
ghost use Rattle.dimacs.specs.Scanning.{left, as_option, used, Tallied, OneMore, TurnIs, ScanIs};

use crate::head::{BadText, Head};
use crate::numbers::number_in;
use crate::own::Own;
use crate::words::next_word;
use plan::Clause;

// The clauses that are ended, and their literals. Where the first of them starts with which there are too many clauses or literals, if there is one. Of the
// clause that is not ended where it starts and how many literals it has.
#[derive(Clone, Copy)]
pub struct Tally {
    pub clauses: usize,
    pub literals: usize,
    pub past: Option<usize>,
    pub start: usize,
    pub unended: usize,
}

impl Tally {
    // What was counted before the first word. A derived `Default` would tell a proof nothing of its value.
    const NOTHING: Tally = Tally {
        clauses: 0,
        literals: 0,
        past: None,
        start: 0,
        unended: 0,
    };

    // The offset of the first word of the clause that is not ended: the word at `at` is the first where no literal came before it.
    fn first_word(self, at: usize) -> usize
        ensures { (a b : ℕ) (done : List Rule) (r : Rule) (before after : List ℤ) → Tallied a b done r before after self → result ≡ first_word r at }
    {
        if self.unended == 0 { at } else { self.start }
    }

    // The clause that is not ended, with one literal more, which stands in the table behind the others.
    fn with_literal(self, at: usize) -> Tally
        requires { used self + 1 < 18446744073709551616 }
        ensures result_value { used result ≡ used self + 1 }
        ensures by_index { (a b : ℕ) (done : List Rule) (r : Rule) (before mid after : List ℤ) (l : ℤ) → Tallied a b done r before mid self → Laid (l ∷ []) (used self) mid after (used self + 1) → Tallied a b done (longer r at l) before after result }
    {
        Tally {
            start: self.first_word(at),
            unended: self.unended + 1,
            ..self
        }
    }

    // Whether the clause that is not ended fits beside the plan's own and those before it.
    fn fits(self, own: Own) -> bool
        requires { self.literals + self.unended < 18446744073709551616 }
        ensures { result ≡ ltb (own.clauses + self.clauses) max_clauses && leb (own.literals + self.literals + self.unended) max_literals }
    {
        if self.clauses >= Clause::MAX - own.clauses {
            return false;
        }
        self.literals + self.unended <= Clause::MAX_LITERALS - own.literals
    }

    // Where the first clause that is too much starts, with the clause that the word at `at` ends.
    fn past_with(self, own: Own, at: usize) -> Option<usize>
        requires tally_bound { used self + 1 < 18446744073709551616 }
        ensures { (done : List Rule) (r : Rule) (before after : List ℤ) → Tallied own.clauses own.literals done r before after self → as_option result ≡ first_over own.clauses own.literals (done ++ (ended_at r at ∷ [])) }
    {
        match self.past {
            Some(past) => Some(past),
            None if self.fits(own) => None,
            None => Some(self.first_word(at)),
        }
    }

    // The clause is ended by the word at `at`, and its 0 stands in the table.
    fn with_end(self, own: Own, at: usize) -> Tally
        requires tally_bound { used self + 1 < 18446744073709551616 }
        ensures result_value { used result ≡ used self + 1 }
        ensures tallied { (done : List Rule) (r : Rule) (before mid after : List ℤ) → Tallied own.clauses own.literals done r before mid self → Laid (pos 0 ∷ []) (used self) mid after (used self + 1) → Tallied own.clauses own.literals (done ++ (ended_at r at ∷ [])) nothing before after result }
    {
        Tally {
            clauses: self.clauses + 1,
            literals: self.literals + self.unended,
            past: self.past_with(own, at),
            start: at,
            unended: 0,
        }
    }
}

// A literal, or the 0 behind a clause, goes to its place, if the table has that place.
fn keep(table: &mut [i16], place: usize, number: i32)
    requires { 0 < length table.old → nat_abs number ≤ max_variables }
    ensures { Laid (number ∷ []) place table.old table.new (place + 1) }
{
    if place < table.len() {
        table[place] = number as i16;
    }
}

// What the number of the word at an offset leads to.
fn turn_by(
    tally: Tally,
    number: Option<i32>,
    at: usize,
    variables: u32,
    own: Own,
    table: &mut [i16],
) -> Result<Tally, BadText>
    requires tally_bound { used tally + 1 < 18446744073709551616 }
    requires variables_le_max_variables { 0 < length table.old → variables ≤ max_variables }
    ensures one_more { OneMore tally result }
    ensures turn_is { (done : List Rule) (r : Rule) (before : List ℤ) → Tallied own.clauses own.literals done r before table.old tally → TurnIs own.clauses own.literals at before table.new (taken variables done r at (as_option number)) result }
{
    let Some(number) = number else {
        return Err(BadText { at });
    };
    if number.unsigned_abs() > variables {
        return Err(BadText { at });
    }
    let place = tally.literals + tally.clauses + tally.unended;
    keep(table, place, number);
    if number != 0 {
        return Ok(tally.with_literal(at));
    }
    Ok(tally.with_end(own, at))
}

// All words behind the `p` line.
pub fn scan(text: &[u8], head: Head, own: Own, table: &mut [i16]) -> Result<Tally, BadText>
    requires end_in_bounds { head.end ≤ length text.now }
    requires variables_le_max_variables { 0 < length table.old → head.variables ≤ max_variables }
    ensures { ScanIs own.clauses own.literals table.old table.new (Reading·clauses (length text.now) head.at head.variables head.count [] nothing (left (between false) text.now head.end)) result }
{
    let mut tally = Tally::NOTHING;
    let mut at = head.end;
    while let Some(word) = next_word(text, at, false) {
        let number = number_in(&text[word.start..word.end]);
        tally = turn_by(tally, number, word.start, head.variables, own, table)?;
        at = word.end;
    }
    if tally.unended > 0 {
        return Err(BadText { at: text.len() });
    }
    Ok(tally)
}
