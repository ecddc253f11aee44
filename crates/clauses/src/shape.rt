// What a block is made from, but for its atom's ends: the graph, the last variable before the block, and how many levels it has. The variables' literals
// fit 32 bits.
ghost use Rattle.plan.specs.Tables.{edges_of};
ghost use Rattle.clauses.specs.LowOnce.{low_once};
ghost use Rattle.clauses.specs.Rows.{LowBlock};

use plan::Edge;

#[derive(Clone, Copy)]
pub struct Shape<'a> {
    pub edges: &'a [Edge],
    pub nodes: usize,
    pub base: usize,
    pub top: usize,
    ghost low: { LowBlock (edges_of edges.now) nodes base top } by { low_once (edges_of edges.now) nodes base top },
}
