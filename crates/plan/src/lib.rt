// plan: the types that all crates speak in (edges, atoms, kinds, refusals, assignments) and the tables they are lent in.
#![tactic(auto)]

pub mod clauses;
mod refusal;
mod tables;

ghost use Rattle.std.specs.Prelude.{◌≡◌, ◌≤◌, pos, negsuc, neg_ℤ, nat_abs, length, take, replicate};
ghost use Rattle.plan.specs.Meaning.{add, number_of_kind, kind_of, measure_of, cost_by, literal_of, true_in};
ghost use Rattle.plan.specs.Closing.{settling};
ghost use Rattle.plan.specs.Search.{Assigned};
ghost use Rattle.plan.specs.Ranged.{LiteralFits};
ghost use Rattle.plan.specs.declared.Kind.{Kind};
ghost use Rattle.plan.specs.Kinds.{Decodes};
ghost use Rattle.plan.specs.Tables.{edge_of, literal_value, BeginsWith};

pub use refusal::{Refusal, Short};
use std::error::Error;
use std::fmt;
pub use tables::Tables;

// What an atom says of its two sites: that there is a path, or one of so many hops, or of such a length, at the most.
#[derive(Clone, Copy, Debug, PartialEq, Eq)]
pub enum Kind {
    Reaches,
    Within,
    LengthAtMost,
}

// A number that no kind has.
#[derive(Clone, Copy, Debug, PartialEq, Eq)]
pub struct UnknownKind(pub u16);

// The kind of a number in a file.
impl TryFrom<u16> for Kind {
    type Error = UnknownKind;

    ghost try_from_gives = { Decodes };

    fn try_from(number: u16) -> Result<Self, UnknownKind> {
        let kind = kind_of(number);
        if u16::from(kind) == number {
            Ok(kind)
        } else {
            Err(UnknownKind(number))
        }
    }
}

// The kind of any number, as the format's definition has it: of one that no kind has, kind 3. It cannot fail, where `try_from` does.
pub fn kind_of(number: u16) -> Kind
    ensures { result ≡ kind_of number }
{
    match number {
        1 => Kind::Reaches,
        2 => Kind::Within,
        _ => Kind::LengthAtMost,
    }
}

// The number of a kind in a file.
impl From<Kind> for u16 {
    ghost from_gives = { λ kind number. number ≡ number_of_kind kind };

    fn from(kind: Kind) -> u16 {
        match kind {
            Kind::Reaches => 1,
            Kind::Within => 2,
            Kind::LengthAtMost => 3,
        }
    }
}

impl fmt::Display for UnknownKind {
    fn fmt<W: fmt::Write>(&self, f: &mut fmt::Formatter<W>) -> fmt::Result {
        write!(f, "no kind of atom has the number {}", self.0)
    }
}

impl Error for UnknownKind {}

impl Kind {
    // What the kind counts.
    pub fn measure(self) -> Measure
        ensures { result ≡ measure_of self }
    {
        match self {
            Kind::Reaches | Kind::Within => Measure::Hops,
            Kind::LengthAtMost => Measure::Lengths,
        }
    }
}

// What is counted along a path.
#[derive(Clone, Copy, Debug, PartialEq, Eq)]
pub enum Measure {
    Hops,
    Lengths,
}

// A graph of a partial assignment: the edges that are on, or those that are not off.
#[derive(Clone, Copy, Debug, PartialEq, Eq)]
pub enum Side {
    Under,
    Over,
}

impl Side {
    // The graph that settles that an atom holds, or that it fails: the same for every kind.
    pub fn settling(holds: bool) -> Side
        ensures { (kind : Kind) → result ≡ settling kind holds }
    {
        if holds { Side::Under } else { Side::Over }
    }
}

// What a partial assignment says of an atom.
#[derive(Clone, Copy, Debug, PartialEq, Eq)]
pub enum State {
    Holds,
    Fails,
    Open,
}

// What stands in the tables of a plan file that was read: how many of each sort.
#[derive(Clone, Copy, Debug, PartialEq, Eq)]
pub struct Plan {
    pub nodes: u16,
    pub variables: u16,
    pub edges: usize,
    pub atoms: usize,
    pub clauses: usize,
    pub literals: usize,
}

impl Plan {
    pub const MAX_BYTES: usize = 16384;

    pub const MAX_NODES: u16 = 64;

    pub const MAX_VARIABLES: u16 = 512;

    pub const MAX_EDGES: usize = 256;
}

#[derive(Clone, Copy, Debug, PartialEq, Eq)]
pub struct Edge {
    pub from: u16,
    pub to: u16,
    pub length: u16,
    pub variable: u16,
}

impl Edge {
    pub const MAX_LENGTH: u16 = 65535;

    // How many numbers an edge has.
    pub const NUMBERS: usize = 4;

    // How many places a table of edges has.
    pub const TABLE: usize = Plan::MAX_EDGES;

    // What stands in a place of a table that is not used.
    pub const NONE: Edge = Edge {
        from: 0,
        to: 0,
        length: 0,
        variable: 0,
    };

    // What the edge adds to a path.
    pub fn cost(self, measure: Measure) -> u64
        ensures { result ≡ cost_by measure (edge_of self) }
    {
        match measure {
            Measure::Hops => 1,
            Measure::Lengths => u64::from(self.length),
        }
    }
}

#[derive(Clone, Copy, Debug, PartialEq, Eq)]
pub struct Atom {
    pub kind: Kind,
    pub from: u16,
    pub to: u16,
    pub bound: u16,
    pub variable: u16,
}

impl Atom {
    pub const MAX: usize = 64;

    pub const MAX_BOUND: u16 = 255;

    pub const MAX_LENGTH_BOUND: u16 = 65535;

    // How many numbers an atom has.
    pub const NUMBERS: usize = 5;

    // How many places a table of atoms has.
    pub const TABLE: usize = Atom::MAX;

    // What stands in a place of a table that is not used.
    pub const NONE: Atom = Atom {
        kind: Kind::Reaches,
        from: 0,
        to: 0,
        bound: 0,
        variable: 0,
    };
}

#[derive(Clone, Copy, Debug, PartialEq, Eq)]
pub struct Clause {
    pub literals: usize,
}

impl Clause {
    pub const MAX: usize = 1024;

    pub const MAX_LITERALS: usize = 4096;

    pub const TABLE: usize = Clause::MAX_LITERALS + Clause::MAX;
}

// An assignment: the value of variable v, 1 on, -1 off, 0 open, stands at place v - 1. The numbers are those of the calls, which are lent assignments as bytes.
#[derive(Clone, Copy, Debug, PartialEq, Eq)]
pub struct Assignment {
    pub values: [i8; Assignment::MAX],
}

impl Assignment {
    pub const MAX: usize = 512;

    pub fn all_open() -> Assignment
        ensures { result.values ≡ replicate 512 (pos 0) }
    {
        Assignment {
            values: [0; Assignment::MAX],
        }
    }

    // The assignment that begins with these values; the rest is open.
    pub fn of(values: &[i8]) -> Assignment
        requires { length values.now ≤ 512 }
        ensures { BeginsWith result.values values.now }
    {
        let mut whole = [0; Assignment::MAX];
        let n = values.len();
        whole[..n].copy_from_slice(values);
        Assignment { values: whole }
    }

    // Writes the first values into a lent result.
    pub fn write_to(&self, res: &mut [i8])
        requires { length res.old ≤ 512 }
        ensures { res.new ≡ take (length res.old) self.now.values }
    {
        res.copy_from_slice(&self.values[..res.len()]);
    }

    // The assignment with one literal more.
    pub fn with(self, literal: i16) -> Assignment
        requires { LiteralFits 512 literal }
        ensures { result.values ≡ add self.values literal }
    {
        let mut next = self;
        put(&mut next.values, literal);
        next
    }
}

// The opposite of a literal; -32,768 has none. A literal stays a number, and that it is one of a variable a clause: tables are lent as numbers, and a type
// for a literal would be made anew at each place.
pub fn opposite(literal: i16) -> i16
    requires { literal ≡ negsuc 32767 → ⊥ }
    ensures { result ≡ neg_ℤ literal }
{
    -literal
}

// The variable of a literal.
pub fn variable_of(literal: i16) -> usize
    requires { literal ≡ negsuc 32767 → ⊥ }
    ensures { result ≡ nat_abs literal }
{
    usize::from(literal.unsigned_abs())
}

// A variable's literal: on or off.
pub fn literal_of(variable: usize, sign: bool) -> i16
    requires { variable ≤ 512 }
    ensures { result ≡ literal_of sign variable }
{
    let literal = variable as i16;
    if sign { literal } else { -literal }
}

// What a literal is in an assignment: 1 true, -1 false, 0 open.
pub fn value_of(values: &[i8], literal: i16) -> i8
    requires assigned { Assigned (length values.now) values.now }
    requires values_len_bound { length values.now ≤ 512 }
    requires literal_fits { LiteralFits (length values.now) literal }
    ensures { result ≡ literal_value values.now literal }
{
    let at = variable_of(literal) - 1;
    let value = values[at];
    if literal > 0 { value } else { -value }
}

// Whether a variable is set to a value: on or off.
pub fn is_set_to(values: &[i8], variable: u16, sign: bool) -> bool
    requires le_variable { 1 ≤ variable }
    requires variable_in_bounds { variable ≤ length values.now }
    ensures { result ≡ true_in values.now (literal_of sign variable) }
{
    let value = if sign { 1 } else { -1 };
    values[usize::from(variable) - 1] == value
}

// Adds one literal to a lent assignment.
pub fn put(values: &mut [i8], literal: i16)
    requires values_len_bound { length values.old ≤ 512 }
    requires literal_fits { LiteralFits (length values.old) literal }
    ensures { values.new ≡ add values.old literal }
{
    let at = variable_of(literal) - 1;
    if literal > 0 {
        values[at] = 1;
    } else {
        values[at] = -1;
    }
}
