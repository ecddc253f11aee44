// The distances from one node.
ghost use Rattle.std.specs.Prelude.{◌≡◌, ◌<◌};
ghost use Rattle.walk.specs.Walking.{reached_in, distance_in};

use crate::has;

// How far each node is, and the set of the nodes that are reached. What stands for a node that is not reached says nothing, so that one table serves for
// walk after walk.
#[derive(Clone, Copy, Debug, PartialEq, Eq)]
pub struct Distances {
    pub far: [u64; 64],
    pub reached: u64,
}

impl Distances {
    // A table to walk into: no node is reached.
    pub fn blank() -> Distances
        ensures { result.reached ≡ 0 }
    {
        Distances {
            far: [0; 64],
            reached: 0,
        }
    }

    // Whether a node is reached.
    pub fn is_reached(&self, node: usize) -> bool
        requires { node < 64 }
        ensures { result ≡ reached_in self.now node }
    {
        has(self.reached, node)
    }

    // The distance of a node that is reached.
    pub fn distance(&self, node: usize) -> u64
        requires { node < 64 }
        ensures { result ≡ distance_in self.now node }
    {
        self.far[node]
    }
}
