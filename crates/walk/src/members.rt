// The members of a set of numbers below 64.
ghost use Rattle.std.specs.Iterator.{at_most};
ghost use Rattle.walk.specs.Members.{TakesLowest};

// What is left of a set, of which the lowest member comes first.
#[derive(Drop)]
pub struct Members(pub u64);

impl Iterator for Members {
    type Item = usize;

    ghost next_gives = { TakesLowest };

    ghost remaining = { λ s. at_most s.0 };

    fn next(&mut self) -> Option<usize> {
        if self.0 == 0 {
            return None;
        }
        let lowest = self.0.trailing_zeros() as usize;
        self.0 &= self.0 - 1;
        Some(lowest)
    }
}
