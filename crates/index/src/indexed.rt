// A clause table and its index, which belong together.
ghost use Rattle.index.specs.Places.{Indexed};

use crate::Index;

// A clause table with its index.
#[derive(Clone, Copy)]
pub struct IndexedClauses<'a> {
    pub table: &'a [i16],
    pub index: &'a Index,
    pub ghost indexed: { Indexed table.now index.now.places },
}
