// Sets of actions, as the views ask for them.
ghost use Rattle.std.specs.Prelude.{◌≡◌, nat_lt};
ghost use Rattle.systems.specs.Sets.{set_of};

use systems::masks::{all_below, as_actions};

// the set of the actions below n
pub fn actions_below(n: u8) -> u32
    ensures { result ≡ set_of 32 (λ i. nat_lt i n) }
{
    as_actions(all_below(n))
}
