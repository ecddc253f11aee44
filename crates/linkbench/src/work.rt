// One function for each operation: it does it so many times and hands back a sum, so that nothing can be left out.
ghost use Rattle.std.specs.Prelude.{◌≡◌, ◌<◌, ◌≤◌};
ghost use Rattle.plan.specs.Ranged.{max_variables};
ghost use Rattle.plan.specs.Tables.{edges_of};
ghost use Rattle.walk.specs.Walking.{AreChains};

use dimacs::Printer;
use plan::{Assignment, Atom, Clause, Edge, Plan, Side, Tables};
use reader::Buffers;
use search::Found;
use walk::{Chains, Distances, Graph};

// Room for the written clauses.
const ROOM: usize = 500000;

// Room for their text. Behind so few numbers no variable has six digits, so a number takes at most 7 bytes: a sign, five digits and a blank.
const TEXT: usize = ROOM * 7;

// Room for the text of the file's own clauses: at most 5 bytes for a literal, 2 for the 0 behind a clause, and the `p cnf` line.
const RULES: usize = Clause::MAX_LITERALS * 5 + Clause::MAX * 2 + 40;

// Does it so many times, and adds up what comes. It is told how many are left with it.
fn summed<F: FnMut(u32) -> u64>(repetitions: u32, mut once: F) -> u64
    requires { F.IsAlwaysCallable once }
{
    let mut sum = 0u64;
    for turn in 0..repetitions {
        sum = sum.wrapping_add(once(repetitions - turn));
    }
    sum
}

// 1 where there is a number and it is 0: a look that keeps what was written from being left out.
fn look<T: Into<i64>>(number: Option<T>) -> u64
    ensures { result ≤ 1 }
{
    match number {
        Some(number) => u64::from(number.into() == 0),
        None => 0,
    }
}

// The nodes of a plan, each in its turn and behind the last the first again. It moves on by one: a division in each turn takes as long as a walk where no
// edges are.
#[derive(Clone, Copy)]
struct Source {
    node: usize,
    nodes: usize,
    ghost inside: { node < 64 },
    ghost few: { nodes ≤ 64 },
}

impl Source {
    fn first(plan: Plan) -> Source
        requires { plan.nodes ≤ 64 }
    {
        Source {
            node: 0,
            nodes: usize::from(plan.nodes),
        }
    }

    fn move_on(&mut self) {
        let next = self.node + 1;
        self.node = if next < self.nodes { next } else { 0 };
    }
}

// Reads the file again each time.
pub fn read(file: &[u8], repetitions: u32) -> u64 {
    summed(repetitions, |left| read_once(file, left as usize))
}

fn read_once(file: &[u8], at: usize) -> u64 {
    let mut buffers = Buffers::new();
    let atoms = match buffers.read(file) {
        Ok(tables) => tables.atoms.len(),
        Err(_) => 0,
    };
    look_in(&buffers, atoms, at)
}

// Looks into each table as a list of its rows' numbers. Only a row that is used has a kind, whose number is not 0.
fn look_in(buffers: &Buffers, atoms: usize, at: usize) -> u64 {
    let edge = match buffers.edges.get(at / Edge::NUMBERS) {
        Some(edge) => look(
            [edge.from, edge.to, edge.length, edge.variable]
                .get(at % Edge::NUMBERS)
                .copied(),
        ),
        None => 0,
    };
    let atom = match buffers.atoms.get(at / Atom::NUMBERS) {
        Some(atom) => {
            let kind = u16::from(at / Atom::NUMBERS < atoms);
            look(
                [kind, atom.from, atom.to, atom.bound, atom.variable]
                    .get(at % Atom::NUMBERS)
                    .copied(),
            )
        }
        None => 0,
    };
    let clause = look(buffers.clauses.get(at).copied());
    edge.wrapping_add(atom).wrapping_add(clause)
}

// Fills the neighbour sets of the over graph of all open each time.
pub fn fill(tables: &Tables, repetitions: u32) -> u64 {
    let mut source = Source::first(tables.plan);
    summed(repetitions, |_| {
        let set = sets_of(tables)[source.node];
        source.move_on();
        set
    })
}

fn sets_of(tables: &Tables) -> [u64; 64] {
    let open = Assignment::all_open();
    walk::neighbours(&Graph {
        edges: tables.edges,
        values: &open.values[..usize::from(tables.plan.variables)],
        side: Side::Over,
    })
}

// What a sum counts for a node: its distance, and 0 for one that is not reached.
fn counted(distances: &Distances, node: usize) -> u64
    requires { node < 64 }
{
    if distances.is_reached(node) {
        distances.distance(node)
    } else {
        0
    }
}

// Walks from each node in turn, in the over graph of all open, whose sets are filled once.
pub fn walk(tables: &Tables, repetitions: u32) -> u64 {
    let sets = sets_of(tables);
    let mut distances = Distances::blank();
    let mut source = Source::first(tables.plan);
    summed(repetitions, |_| {
        walk::walk(&sets, source.node, &mut distances);
        source.move_on();
        counted(&distances, source.node)
    })
}

// Fills the chains of the edges of the over graph of all open each time.
pub fn fill_chains(tables: &Tables, repetitions: u32) -> u64 {
    let mut source = Source::first(tables.plan);
    summed(repetitions, |_| {
        let first = chains_of(tables).first[source.node];
        source.move_on();
        u64::from(first)
    })
}

fn chains_of(tables: &Tables) -> Chains
    ensures { AreChains (edges_of tables.now.edges.now) result }
{
    let open = Assignment::all_open();
    Chains::of(&Graph {
        edges: tables.edges,
        values: &open.values[..usize::from(tables.plan.variables)],
        side: Side::Over,
    })
}

// Walks by length from each node in turn, in the over graph of all open, whose chains are filled once.
pub fn length_walk(tables: &Tables, repetitions: u32) -> u64 {
    let chains = chains_of(tables);
    let mut distances = Distances::blank();
    let mut source = Source::first(tables.plan);
    summed(
        repetitions,
        |_|
            requires { AreChains (edges_of tables.now.edges.now) chains }
        {
            walk::length_walk(tables.edges, &chains, source.node, &mut distances);
            source.move_on();
            counted(&distances, source.node)
        },
    )
}

// Closes from all open each time.
pub fn close(tables: &Tables, repetitions: u32) -> u64 {
    summed(repetitions, |_| close_once(tables))
}

fn close_once(tables: &Tables) -> u64 {
    let mut open = Assignment::all_open();
    let values = &mut open.values[..usize::from(tables.plan.variables)];
    u64::from(closing::close(tables, values).is_ok())
}

// Writes the clauses each time. The sum stays 0 where there is no room for them.
pub fn write(tables: &Tables, repetitions: u32) -> u64 {
    let mut numbers = [0i32; ROOM];
    write_into(tables, repetitions, numbers.as_mut_slice())
}

fn write_into(tables: &Tables, repetitions: u32, numbers: &mut [i32]) -> u64 {
    summed(repetitions, |left| {
        let written = match clauses::write_clauses(tables, numbers) {
            Ok(counts) => counts.numbers as u64,
            Err(_) => 0,
        };
        written.wrapping_add(look(numbers.get(left as usize).copied()))
    })
}

// Prints the file as text each time, if there is room for it.
pub fn print(tables: &Tables, repetitions: u32) -> u64 {
    let mut text = [0u8; TEXT];
    print_into(tables, repetitions, text.as_mut_slice())
}

fn print_into(tables: &Tables, repetitions: u32, text: &mut [u8]) -> u64 {
    summed(repetitions, |left| {
        let printed = match listing::write_text(tables, text) {
            Ok(bytes) => bytes as u64,
            Err(_) => 0,
        };
        printed.wrapping_add(look(text.get(left as usize).copied()))
    })
}

// Reads the file's own clauses as rules each time, from their text, which is made once.
pub fn rules(tables: &Tables, repetitions: u32) -> u64 {
    let Plan {
        variables,
        clauses,
        ..
    } = tables.plan;
    let mut text = [0u8; RULES];
    let mut printer = Printer {
        out: &mut text,
        at: 0,
    };
    printer.head(u32::from(variables), clauses as u32);
    printer.numbers(tables.clauses);
    let end = printer.at;
    let Some(text) = text.get(..end) else {
        return 0;
    };
    let mut table = [0i16; Clause::TABLE];
    summed(repetitions, |left| {
        let read = rules_once(without_clauses(tables.plan), text, &mut table);
        read.wrapping_add(look(table.get(left as usize).copied()))
    })
}

// The plan as it was before its clauses, so that the limits hold for the text's alone.
fn without_clauses(plan: Plan) -> Plan
    ensures { (result.variables ≡ plan.variables) × (result.clauses ≡ 0) × (result.literals ≡ 0) }
{
    Plan {
        clauses: 0,
        literals: 0,
        ..plan
    }
}

fn rules_once(plan: Plan, text: &[u8], table: &mut [i16; Clause::TABLE]) -> u64
    requires { (plan.variables ≤ max_variables) × (plan.clauses ≡ 0) × (plan.literals ≡ 0) }
{
    match dimacs::read_rules(plan, text, table) {
        Ok(rules) => (rules.clauses as u64).wrapping_add(rules.literals as u64),
        Err(_) => 0,
    }
}

// Searches once, with this budget, and hands back the branchings.
pub fn search(tables: &Tables, budget: u32) -> u64 {
    let mut open = Assignment::all_open();
    let values = &mut open.values[..usize::from(tables.plan.variables)];
    match search::search(tables, budget, values) {
        Found::Plan(branchings) | Found::Impossible(branchings) | Found::Undecided(branchings) => {
            u64::from(branchings)
        }
    }
}
