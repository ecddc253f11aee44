// The ranges of document 01.
ghost use Rattle.std.specs.Prelude.{◌≡◌};
ghost use Rattle.plan.specs.Meaning.{number_of_kind};
ghost use Rattle.plan.specs.Tables.{edge_of, atom_of};
ghost use Rattle.reader.specs.Format.{variable_ok, head_ok, ends_ok, length_ok, bound_ok, edge_ok, atom_ok, literal_ok};

use plan::{Atom, Edge, Kind, Plan};

fn variable_ok(variables: u16, variable: u16) -> bool
    ensures { result ≡ variable_ok variables variable }
{
    (1..=variables).contains(&variable)
}

#[tactic(auto, unfolding(crate::specs::Format::head_ok))]
pub fn head_ok(nodes: u16, variables: u16) -> bool
    ensures { result ≡ head_ok nodes variables }
{
    (1..=Plan::MAX_NODES).contains(&nodes) && (1..=Plan::MAX_VARIABLES).contains(&variables)
}

#[tactic(auto, unfolding(crate::specs::Format::ends_ok))]
fn ends_ok(counts: Plan, from: u16, to: u16, variable: u16) -> bool
    ensures { result ≡ ends_ok counts.nodes counts.variables from to variable }
{
    from < counts.nodes && to < counts.nodes && variable_ok(counts.variables, variable)
}

#[tactic(auto, unfolding(crate::specs::Format::length_ok))]
fn length_ok(length: u16) -> bool
    ensures { result ≡ length_ok length }
{
    (1..=Edge::MAX_LENGTH).contains(&length)
}

fn bound_ok(kind: Kind, bound: u16) -> bool
    ensures { result ≡ bound_ok kind bound }
{
    match kind {
        Kind::Reaches => bound == 0,
        Kind::Within => bound <= Atom::MAX_BOUND,
        Kind::LengthAtMost => bound <= Atom::MAX_LENGTH_BOUND,
    }
}

pub fn edge_ok(counts: Plan, edge: Edge) -> bool
    ensures { result ≡ edge_ok counts.nodes counts.variables (edge_of edge) }
{
    ends_ok(counts, edge.from, edge.to, edge.variable) && length_ok(edge.length)
}

#[tactic(auto, unfolding(crate::specs::Format::kind_ok))]
pub fn atom_ok(counts: Plan, atom: Atom) -> bool
    ensures { result ≡ atom_ok counts.nodes counts.variables (number_of_kind atom.kind) (atom_of atom) }
{
    bound_ok(atom.kind, atom.bound) && ends_ok(counts, atom.from, atom.to, atom.variable)
}

#[tactic(auto, unfolding(crate::specs::Format::literal_ok))]
pub fn literal_ok(variables: u16, literal: i16) -> bool
    ensures { result ≡ literal_ok variables literal }
{
    variable_ok(variables, literal.unsigned_abs())
}
