// index: where each number of a clause table stands.
#![tactic(auto)]

ghost use Rattle.std.specs.Prelude.{◌≡◌, ◌<◌, ◌≤◌, nat_abs, get_or};
ghost use Rattle.plan.specs.Ranged.{max_variables};
ghost use Rattle.plan.specs.ClauseTable.{max_table};
ghost use Rattle.index.specs.Places.{slot, slot_behind, Indexable, Indexed};

pub mod indexed;

pub use indexed::IndexedClauses;
use plan::{Assignment, Clause};

// Where the numbers of a clause table stand: each number's first place and, for each place, the next one that holds the same number.
#[derive(Clone, Copy)]
pub struct Index {
    pub places: [u16; Index::TABLE],
}

impl Index {
    // The numbers that have a first place: 0, and both literals of each variable.
    pub const FIRSTS: usize = 2 * Assignment::MAX + 1;

    pub const TABLE: usize = Index::FIRSTS + Clause::TABLE;

    // A number's first place.
    pub fn first_place(&self, number: i16) -> usize
        requires { nat_abs number ≤ max_variables }
        ensures { result ≡ get_or self.now.places (slot number) 0 }
    {
        usize::from(self.places[slot_of(number)])
    }

    // The next place that holds the same number as this one.
    pub fn next_place(&self, place: usize) -> usize
        requires { place < max_table }
        ensures { result ≡ get_or self.now.places (slot_behind place) 0 }
    {
        usize::from(self.places[Index::FIRSTS + place])
    }
}

// Where an index keeps a number's first place.
fn slot_of(number: i16) -> usize
    requires { nat_abs number ≤ max_variables }
    ensures { result ≡ slot number }
{
    let variable = plan::variable_of(number);
    if number < 0 {
        Assignment::MAX + variable
    } else {
        variable
    }
}

// The index of a clause table, made from the table's end to its beginning. A place that is not there is the table's length: an
// `Option<u16>` has twice the bytes, and the memory is fixed.
pub fn index_of(clauses: &[i16]) -> Index
    requires { Indexable clauses.now }
    ensures { Indexed clauses.now result.places }
{
    let none = clauses.len() as u16;
    let mut places = [none; Index::TABLE];
    for at in (0..clauses.len()).rev() {
        let slot = slot_of(clauses[at]);
        places[Index::FIRSTS + at] = places[slot];
        places[slot] = at as u16;
    }
    Index { places }
}
