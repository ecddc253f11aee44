// The checks of the calls, each with its refusal. "Order: 1; then record by record ..; then 9 to 12": a call makes them in that order.
ghost use Rattle.std.specs.Prelude.{◌≡◌, ◌-◌, ◌<◌, ◌≤◌, not, length, position, IfOk, leb};
ghost use Rattle.plan.specs.File.{file_of};
ghost use Rattle.plan.specs.Places.{first_not};
ghost use Rattle.planner.specs.Refusing.{Met, taken, require, require_length, require_values, require_atom, require_blocks};
ghost use Rattle.planner.specs.Checks.{Passes};

use plan::{Refusal, Tables};

// An assignment or a result has a place for each variable.
pub fn require_length(tables: &Tables, values: &[i8]) -> Result<(), Refusal>
    ensures passes { (m : Met) → Passes (require_length (file_of tables.now) values.now m) m result }
    ensures holds { IfOk result (λ _. length values.now ≡ tables.now.plan.variables) }
{
    let variables = usize::from(tables.plan.variables);
    if values.len() != variables {
        return Err(Refusal::WrongLength(variables));
    }
    Ok(())
}

// Whether a value is one that is taken: 1, -1, and 0 in a partial assignment.
fn is_taken(value: i8, partial: bool) -> bool
    ensures { result ≡ taken partial value }
{
    match value {
        1 | -1 => true,
        0 => partial,
        _ => false,
    }
}

// The first place whose value is not taken.
fn first_not(values: &[i8], partial: bool) -> Option<usize>
    ensures { result ≡ position (λ value. not (taken partial value)) values.now }
{
    values.iter().position(|value| !is_taken(*value, partial))
}

// Every value is one that is taken.
pub fn require_values(values: &[i8], partial: bool) -> Result<(), Refusal>
    ensures passes { (m : Met) → Passes (require_values (taken partial) values.now m) m result }
    ensures holds { IfOk result (λ _. first_not (taken partial) values.now ≡ length values.now) }
{
    match first_not(values, partial) {
        Some(place) => Err(Refusal::BadValue(place)),
        None => Ok(()),
    }
}

// There is an atom of that number, from 1.
pub fn require_atom(tables: &Tables, atom: usize) -> Result<(), Refusal>
    ensures passes { (m : Met) → Passes (require_atom (file_of tables.now) atom m) m result }
    ensures holds { IfOk result (λ _. (1 ≤ atom) × (atom ≤ length tables.now.atoms.now)) }
{
    let count = tables.atoms.len();
    if atom == 0 || atom > count {
        return Err(Refusal::NoSuchAtom(count));
    }
    Ok(())
}

// Every atom is of a kind that is written out.
pub fn require_blocks(tables: &Tables) -> Result<(), Refusal>
    ensures { (m : Met) → Passes (require_blocks (file_of tables.now) m) m result }
{
    match clauses::first_unwritten(tables.atoms) {
        Some(place) => Err(Refusal::NoBlock(place + 1)),
        None => Ok(()),
    }
}

// A lent buffer has room for the exact answer.
pub fn require_room(out: &[u8], needed: usize) -> Result<(), Refusal>
    ensures passes { (m : Met) → Passes (require (leb needed (length out.now)) 12 needed m) m result }
    ensures holds { IfOk result (λ _. needed ≤ length out.now) }
{
    if out.len() < needed {
        return Err(Refusal::NoRoom(needed));
    }
    Ok(())
}
