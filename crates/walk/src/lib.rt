// The walks: distances from one node in a graph, by hops and by length, and what they say of an atom. How the distances are laid out stays in here.
#![tactic(auto)]

mod distances;
mod graph;
mod lengths;
mod members;

ghost use Rattle.std.specs.Prelude.{◌≡◌, ◌+◌, ◌<◌, ◌≤◌, length, ℕ, ◌↔◌, T};
ghost use Rattle.plan.specs.Meaning.{cost_by, graph_of, true_in, Allows};
ghost use Rattle.plan.specs.Ranged.{max_edges};
ghost use Rattle.plan.specs.Tables.{atom_of};
ghost use Rattle.walk.specs.Given.{edges_in, graph_in};
ghost use Rattle.walk.specs.Walking.{bit, Neighbours, DistanceTable, Walked, Truth, SettledBy};
ghost use Rattle.walk.specs.Front.{size, Visited};

pub use distances::Distances;
use graph::admits;
pub use graph::{Graph, is_present};
pub use lengths::{Chains, length_atoms, length_walk, true_by_length};
pub use members::Members;
use plan::{Atom, Kind, Measure, Side, State};

// Whether a node is in a set.
pub fn has(set: u64, node: usize) -> bool
    requires { node < 64 }
    ensures { result ≡ bit node set }
{
    (set >> node) % 2 == 1
}

// Of a set, the members that a test keeps.
pub fn filtered<F: Fn(usize) -> bool>(set: u64, keeps: F) -> u64
    requires { (k : ℕ) → T (bit k set) → F.pre keeps k }
    ensures { (k : ℕ) → (T (bit k set) → F.post keeps k (bit k result)) × (T (bit k result) → T (bit k set)) }
{
    let mut those = 0u64;
    for k in Members(set) {
        if keeps(k) {
            those |= 1u64 << k;
        }
    }
    those
}

// The set of nodes that each node leads to in one hop, in the graph of a side, edge by edge.
fn filled(graph: &Graph, side: Side) -> [u64; 64]
    ensures { Neighbours (edges_in graph.now) (graph_of side (true_in graph.now.values.now)) result }
{
    let mut sets: [u64; 64] = [0; 64];
    for edge in graph.edges {
        if admits(graph.values, edge.variable, side) {
            sets[usize::from(edge.from)] |= 1u64 << edge.to;
        }
    }
    sets
}

// The set of nodes that each node leads to in one hop. Each side is named by itself, so that it gets a loop of its own, which knows with what to compare an
// edge's value.
pub fn neighbours(graph: &Graph) -> [u64; 64]
    ensures { Neighbours (edges_in graph.now) (graph_in graph.now) result }
{
    match graph.side {
        Side::Under => filled(graph, Side::Under),
        Side::Over => filled(graph, Side::Over),
    }
}

// Gives each node of the set `new` its count and a place in the queue, whose first `tail` places are used. Returns the queue's new end, which moves with what
// is written. (No Vec: no heap.)
fn visit(new: u64, count: u64, tail: usize, far: &mut [u64; 64], queue: &mut [u8; 64]) -> usize
    requires { tail + size new ≤ 64 }
    ensures { Visited new count tail far.old queue.old result far.new queue.new }
{
    let mut end = tail;
    for node in Members(new) {
        far[node] = count;
        queue[end] = node as u8;
        end += 1;
    }
    end
}

// The hops from `source` to every node, breadth first. What is left are the nodes that are not reached; new ones are among them, and are taken away.
pub fn walk(neighbours: &[u64; 64], source: usize, distances: &mut Distances)
    requires { source < 64 }
    ensures { Walked neighbours.now source distances.new }
{
    let mut left = !(1u64 << source);
    distances.far[source] = 0;
    let mut queue = [0u8; 64];
    queue[0] = source as u8;
    let mut tail = 1;
    let mut head = 0;
    // A queue: it grows while it is used up.
    while head < tail {
        let node = usize::from(queue[head]);
        let new = neighbours[node] & left;
        let count = distances.far[node] + 1;
        tail = visit(new, count, tail, &mut distances.far, &mut queue);
        left -= new;
        head += 1;
    }
    distances.reached = !left;
}

// The distances from `source` in a graph, by hops or by length.
pub fn distances_by(measure: Measure, graph: &Graph, source: usize) -> Distances
    requires edges_len_bound { length (edges_in graph.now) ≤ max_edges }
    requires source_bound { source < 64 }
    ensures { DistanceTable (cost_by measure) (edges_in graph.now) (graph_in graph.now) source result }
{
    let mut distances = Distances::blank();
    match measure {
        Measure::Hops => walk(&neighbours(graph), source, &mut distances),
        Measure::Lengths => length_walk(graph.edges, &Chains::of(graph), source, &mut distances),
    }
    distances
}

// Whether a kind allows a distance, with this bound.
fn allows(kind: Kind, bound: u16, distance: u64) -> bool
    ensures { T result ↔ Allows kind bound distance }
{
    match kind {
        Kind::Reaches => true,
        Kind::Within | Kind::LengthAtMost => distance <= u64::from(bound),
    }
}

// Whether an atom is true in the graph of which these are the distances from its source.
pub fn is_true(atom: Atom, distances: &Distances) -> bool
    requires { atom.to < 64 }
    ensures { Truth (atom_of atom) distances.now result }
{
    let to = usize::from(atom.to);
    if !distances.is_reached(to) {
        return false;
    }
    allows(atom.kind, atom.bound, distances.distance(to))
}

// What an assignment says of an atom, by the distances from its source in the graph by which it would hold and in that by which it would fail.
pub fn settled(atom: Atom, holding: &Distances, failing: &Distances) -> State
    requires { atom.to < 64 }
    ensures { SettledBy (atom_of atom) holding.now failing.now result }
{
    if is_true(atom, holding) {
        State::Holds
    } else if is_true(atom, failing) {
        State::Open
    } else {
        State::Fails
    }
}
