// The length walk: the edges of a graph in chains by their start, and the distances from one node, the nearest node first.
ghost use Rattle.std.specs.Prelude.{◌≡◌, ◌+◌, ◌*◌, ◌<◌, ◌≤◌, length, get_or};
ghost use Rattle.plan.specs.Meaning.{atom, IsTrue, graph_of, true_in};
ghost use Rattle.plan.specs.Ranged.{max_edges, max_length, max_atoms};
ghost use Rattle.plan.specs.Tables.{edges_of, atoms_of};
ghost use Rattle.walk.specs.Given.{edges_in, graph_in};
ghost use Rattle.walk.specs.Walking.{Chained, AreChains, LengthWalked, Those, LengthAtoms, CountLengths};
ghost use Rattle.walk.specs.Nearest.{ChainedFrom, Nearest, is_better, lowered, Relaxes};

use crate::graph::admits;
use crate::{Distances, Graph, Members, filtered, has, is_true};
use plan::{Atom, Edge, Measure, Plan, Side};

// The edges of a graph: for each node the number, from 0, of the first that starts there, and for each edge that of the next one behind it with the same
// start. The count of the edges stands for none: an `Option<u16>` has twice the bytes, and the memory is fixed.
#[derive(Clone, Copy, Debug, PartialEq, Eq)]
pub struct Chains {
    pub first: [u16; 64],
    pub next: [u16; Plan::MAX_EDGES],
}

impl Chains {
    // The edges of a graph by their start. Each side is named by itself, as for the neighbours.
    pub fn of(graph: &Graph) -> Chains
        requires { length (edges_in graph.now) ≤ max_edges }
        ensures { Chained (edges_in graph.now) (graph_in graph.now) result }
    {
        let none = graph.edges.len() as u16;
        let mut chains = Chains {
            first: [none; 64],
            next: [none; Plan::MAX_EDGES],
        };
        match graph.side {
            Side::Under => chains.put_all(graph, Side::Under),
            Side::Over => chains.put_all(graph, Side::Over),
        }
        chains
    }

    // Puts the edges of the graph of a side into chains without any: from the last edge down, each before those of its start that were there.
    fn put_all(&mut self, graph: &Graph, side: Side)
        requires few { length (edges_in graph.now) ≤ max_edges }
        requires none { ChainedFrom (edges_in graph.now) (graph_of side (true_in graph.now.values.now)) (length (edges_in graph.now)) self.old }
        ensures { ChainedFrom (edges_in graph.now) (graph_of side (true_in graph.now.values.now)) 0 self.new }
    {
        for (k, edge) in graph.edges.iter().enumerate().rev() {
            if admits(graph.values, edge.variable, side) {
                let from = usize::from(edge.from);
                self.next[k] = self.first[from];
                self.first[from] = k as u16;
            }
        }
    }
}

// The nearest node of a set, which has one.
fn nearest(set: u64, far: &[u64; 64]) -> usize
    requires { set ≡ 0 → ⊥ }
    ensures { Nearest set far.now result }
{
    let mut node = set.trailing_zeros() as usize;
    let mut least = far[node];
    for other in Members(set & (set - 1)) {
        if far[other] < least {
            node = other;
            least = far[other];
        }
    }
    node
}

// Whether a node is reached for the first time, or in less than before.
fn is_better(known: u64, node: usize, distance: u64, far: &[u64; 64]) -> bool
    requires { node < 64 }
    ensures { result ≡ is_better known far.now node distance }
{
    !has(known, node) || distance < far[node]
}

// Takes an edge that starts `near` away: its end gets the distance over it, where that is the first or a smaller one. It is written in either case: which of
// the two it is can hardly be foreseen.
fn lower(edge: Edge, near: u64, known: u64, far: &mut [u64; 64])
    requires to_bound { edge.to < 64 }
    requires near_bound { near ≤ 64 * max_length }
    ensures { far.new ≡ lowered known edge.to (near + edge.length) far.old }
{
    let to = usize::from(edge.to);
    let over = near + u64::from(edge.length);
    let best = if is_better(known, to, over, far) {
        over
    } else {
        far[to]
    };
    far[to] = best;
}

// Takes all edges that start at a node that is known. Returns the nodes that are known then.
fn relax(edges: &[Edge], chains: &Chains, node: usize, known: u64, far: &mut [u64; 64]) -> u64
    requires chains { AreChains (edges_of edges.now) chains.now }
    requires node_bound { node < 64 }
    requires near_bound { get_or far.old node 0 ≤ 64 * max_length }
    ensures { Relaxes (edges_of edges.now) chains.now node known far.old result far.new }
{
    let near = far[node];
    let mut reached = known;
    let mut k = usize::from(chains.first[node]);
    // Along the chain: the next edge is the one that this edge names.
    while k < edges.len() {
        let edge = edges[k];
        lower(edge, near, reached, far);
        reached |= 1u64 << edge.to;
        k = usize::from(chains.next[k]);
    }
    reached
}

// The distances by length from `source` to every node. The nearest node that is known and not done is taken next: no way over another can be
// shorter.
pub fn length_walk(edges: &[Edge], chains: &Chains, source: usize, distances: &mut Distances)
    requires chains { AreChains (edges_of edges.now) chains.now }
    requires source_bound { source < 64 }
    ensures { LengthWalked (edges_of edges.now) chains.now source distances.new }
{
    distances.far[source] = 0;
    let mut known = 1u64 << source;
    let mut done = 0u64;
    // What is known grows while it is done.
    while done != known {
        let node = nearest(known & !done, &distances.far);
        known = relax(edges, chains, node, known, &mut distances.far);
        done |= 1u64 << node;
    }
    distances.reached = known;
}

// Of a set of atoms that count lengths, those that are true in the graph. One walk for each source, and nothing is made for none.
pub fn true_by_length(graph: &Graph, atoms: &[Atom], asked: u64) -> u64
    requires edges_len_bound { length (edges_in graph.now) ≤ max_edges }
    requires length_atoms { LengthAtoms (atoms_of atoms.now) asked }
    ensures { Those (λ k. IsTrue (edges_in graph.now) (graph_in graph.now) (atom (atoms_of atoms.now) k)) asked result }
{
    if asked == 0 {
        return 0;
    }
    let chains = Chains::of(graph);
    let mut distances = Distances::blank();
    let mut those = 0u64;
    let mut rest = asked;
    // A turn takes out all atoms of one source.
    while rest != 0 {
        let source = atoms[rest.trailing_zeros() as usize].from;
        let same = filtered(rest, |k| atoms[k].from == source);
        length_walk(graph.edges, &chains, usize::from(source), &mut distances);
        those |= filtered(same, |k| is_true(atoms[k], &distances));
        rest &= !same;
    }
    those
}

// Those atoms that count lengths.
pub fn length_atoms(atoms: &[Atom]) -> u64
    requires { length atoms.now ≤ max_atoms }
    ensures { CountLengths (atoms_of atoms.now) (length atoms.now) result }
{
    let mut those = 0u64;
    for (k, atom) in atoms.iter().enumerate() {
        if atom.kind.measure() == Measure::Lengths {
            those |= 1u64 << k;
        }
    }
    those
}
