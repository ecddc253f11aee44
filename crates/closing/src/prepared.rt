// A plan file made ready for closing.
ghost use Rattle.plan.specs.Tables.{atoms_of};
ghost use Rattle.walk.specs.Walking.{CountLengths};
ghost use Rattle.index.specs.Places.{Indexed};

use index::Index;
use plan::Tables;

// A plan file's tables, the index of its clauses, and the atoms that count lengths.
#[derive(Clone, Copy)]
pub struct Prepared<'a> {
    pub tables: Tables<'a>,
    pub index: &'a Index,
    pub lengths: u64,
    pub ghost indexed: { Indexed tables.clauses.now index.now.places },
    pub ghost counted: { CountLengths (atoms_of tables.atoms.now) tables.plan.atoms lengths },
}
