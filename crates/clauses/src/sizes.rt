// The sizes by which a block is counted.
ghost use Rattle.std.specs.Prelude.{◌≡◌};
ghost use Rattle.plan.specs.Written.{block_variables, block_clauses, block_numbers};
ghost use Rattle.encoding.specs.Counts.{InLimits};

// How many nodes and edges the graph has, and how many levels the block.
#[derive(Clone, Copy)]
pub struct Sizes {
    pub nodes: usize,
    pub edges: usize,
    pub top: usize,
    ghost in_limits: { InLimits nodes edges top },
}

impl Sizes {
    #[tactic(auto, using(encoding::proofs::Sizes::block_variables_most), unfolding(plan::specs::Written::block_variables))]
    pub fn variables(self) -> usize
        ensures { result ≡ block_variables self.nodes self.edges self.top }
    {
        (self.top + 1) * self.nodes + self.top * self.edges
    }

    #[tactic(auto, using(encoding::proofs::Sizes::block_clauses_most), unfolding(plan::specs::Written::block_clauses))]
    pub(crate) fn clauses(self) -> usize
        ensures { result ≡ block_clauses self.nodes self.edges self.top }
    {
        self.nodes + self.top * (4 * self.edges + 2 * self.nodes) + 2
    }

    #[tactic(auto, using(encoding::proofs::Sizes::block_numbers_most), unfolding(plan::specs::Written::block_numbers))]
    pub(crate) fn numbers(self) -> usize
        ensures { result ≡ block_numbers self.nodes self.edges self.top }
    {
        2 * self.nodes + self.top * (14 * self.edges + 6 * self.nodes) + 6
    }
}
