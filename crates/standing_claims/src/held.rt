//! Claims with the locks that they have taken, and searches among them.

ghost use Rattle.std.specs.Prelude.{◌≡◌, ◌==◌};
ghost use Rattle.std.specs.List.{position_or_len};
ghost use Rattle.standing_claims.specs.declared.held.Held.{Held};
ghost use Rattle.standing_claims.specs.Held.{claims_in};
ghost use Rattle.standing_claims.specs.Standing.{number_of_choice};

use crate::claim::Claim;
use ops_text::Sequence;
use rule_base::{Choice, Mode};

/// A claim that stands, and its footprint.
#[derive(Drop)]
pub struct Held {
    pub claim: Claim,
    pub footprint: Sequence<(u32, Mode)>,
}

/// The place of the claim with this number, or how many claims there are where none has it.
pub fn place_of(held: &[Held], number: u64) -> usize
    ensures { result ≡ position_or_len (λ (h : Held). h.claim.number == number) held.now }
{
    for place in 0..held.len() {
        if held[place].claim.number == number {
            return place;
        }
    }
    held.len()
}

/// The number of the first claim of this choice, if there is one.
pub fn number_of(held: &[Held], choice: &Choice) -> Option<u64>
    ensures { result ≡ number_of_choice (claims_in held.now) choice.now }
{
    for one in held {
        if one.claim.candidate.choice.same(choice) {
            return Some(one.claim.number);
        }
    }
    None
}
