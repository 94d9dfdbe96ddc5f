// The sort of mapping that a number names. Apart from the type, which stands without the definitions.
ghost use Rattle.std.specs.Prelude.{◌≡◌};
ghost use Rattle.flow.specs.Calls.{sort_of};
ghost use Rattle.store.specs.Sorts.{sort_in};

use crate::numbers::Sort;

/// The sort that unmap's field b names: 0 for reading, any other both ways (document 02, Paper 4).
impl From<u8> for Sort {
    ghost from_gives = { λ b x. sort_in x ≡ sort_of b };

    #[tactic(auto, unfolding(flow::specs::Calls::sort_of))]
    fn from(b: u8) -> Sort {
        match b {
            0 => Sort::ToRead,
            _ => Sort::BothWays,
        }
    }
}
