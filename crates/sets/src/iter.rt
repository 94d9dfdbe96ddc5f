// The members of a set, one after the other.
ghost use Rattle.std.specs.Prelude.{◌≡◌};
ghost use Rattle.std.specs.Iterator.{at_most};
ghost use Rattle.sets.specs.Sets.{count};
ghost use Rattle.sets.specs.Members.{TakesLowest};

use crate::{lowest, rest};

// The members of a set, of which some may have been gone through: those that are left.
#[derive(Drop)]
pub struct Members {
    pub left: u64,
}

// In rising order.
impl Iterator for Members {
    type Item = u8;

    ghost next_gives = { λ s r t. TakesLowest s.left r t.left };

    ghost remaining = { λ s. at_most (count s.left) };

    fn next(&mut self) -> Option<u8> {
        if self.left == 0 {
            return None;
        }
        let member = lowest(self.left) as u8;
        self.left = rest(self.left);
        Some(member)
    }
}

// Goes through the members of x.
pub fn each(x: u64) -> Members
    ensures { result.left ≡ x }
{
    Members { left: x }
}
