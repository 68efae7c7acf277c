//! The claims that stand, and the words of their locks.

ghost use Rattle.std.specs.Prelude.{◌≡◌, ◌+◌, ◌<◌, ◌≤◌, ◌==◌, [], ◌∷◌, ◌++◌, ◌↔◌, ℕ, IsTrue, OnErr, OnOk, Some, cond, false, is_some, length, map, slice_get};
ghost use Rattle.std.specs.Option.{option_copied};
ghost use Rattle.std.specs.List.{AllByRecursion};
ghost use Rattle.rule_base.specs.declared.lock.Mode.{Mode};
ghost use Rattle.rule_base.specs.Memory.{Rises};
ghost use Rattle.interference.specs.Words.{first_busy, word_of};
ghost use Rattle.standing_claims.specs.Amounts.{AreOfLocks, IsFootprint};
ghost use Rattle.standing_claims.specs.Standing.{claim_numbered, claims_without, footprints_without, is_full, number_of_choice, numbers_of};

use crate::claim::Claim;
use crate::held::{Held, number_of, place_of};
use crate::words::{add_amounts, free_all, lay_out, subtract_amounts};
use interference::first_busy;
use ops_text::{OutOfMemory, Sequence};
use rule_base::{Busy, Candidate, Choice, Mode};
use std::alloc::Global;
use std::marker::Model;

/// How many claims may stand, so that no word overflows.
const MOST: usize = 4095;

/// The claims that stand, in the order of their numbers, with their footprints, and for each lock the
/// word that these add up to.
#[derive(Drop)]
pub struct Standing {
    claims: Vec<Held>,
    /// A word for each lock, or none before there was room for a first claim.
    words: Vec<u64>,
    /// How many claims were given a number since all were last dropped.
    given: u64,
    /// How many more claims there is room for, at least.
    spare: usize,
}

impl Model for Standing {
    ghost use Rattle.std.specs.Prelude.{◌+◌, ◌≤◌, vec_capacity, vec_len};
    ghost use Rattle.standing_claims.specs.Held.{standing_with};
    ghost use Rattle.standing_claims.specs.Standing.{IsKept, Standing};

    ghost Value = { Standing };

    ghost view = { λ s. standing_with s.claims.items s.given s.spare };

    ghost invariant = { λ s. IsKept (standing_with s.claims.items s.given s.spare) s.words.items
        × (s.spare + vec_len s.claims ≤ vec_capacity s.claims) };
}

impl Standing {
    /// No claims, and none given a number, which takes no memory.
    pub fn new(alloc: Global) -> Standing
        ensures { result ≡ record { claims = []; footprints = []; given = 0; spare = 0 } }
    {
        Standing {
            claims: Vec::new(alloc),
            words: Vec::new(alloc),
            given: 0,
            spare: 0,
        }
    }

    /// How many claims were given a number since all were last dropped.
    pub fn given(&self) -> u64
        ensures value { result ≡ self.now.given }
        ensures rising { Rises (numbers_of self.now.claims) }
        ensures numbered { AllByRecursion (λ n. n ≤ self.now.given) (numbers_of self.now.claims) }
    {
        self.given
    }

    /// How many claims stand.
    pub fn len(&self) -> usize
        ensures value { result ≡ length self.now.claims }
        ensures few { result ≤ 4095 }
        ensures paired { length self.now.footprints ≡ result }
        ensures footprints { AllByRecursion IsFootprint self.now.footprints }
    {
        self.claims.len()
    }

    /// Whether none stands.
    pub fn is_empty(&self) -> bool
        ensures { IsTrue result ↔ (self.now.claims ≡ []) }
    {
        self.claims.is_empty()
    }

    /// The claim at a place, counted from 0, in the order of their numbers.
    pub fn claim_at(&self, at: usize) -> &Claim
        requires { at < length self.now.claims }
        ensures { slice_get self.now.claims at ≡ Some result.now }
    {
        &self.claims[at].claim
    }

    /// The first lock of the footprint on which the claims leave no room for its mode, with its word. It
    /// is one look-up for each demand, and takes no memory.
    pub fn busy(&self, footprint: &[(u32, Mode)]) -> Option<Busy>
        requires { AreOfLocks footprint.now }
        ensures { result ≡ first_busy (word_of self.now.footprints) footprint.now }
    {
        if self.words.is_empty() {
            return None;
        }
        first_busy(self.words.as_slice(), footprint)
    }

    /// The claim with this number, if it stands. It looks at one claim after another.
    pub fn with_number(&self, number: u64) -> Option<&Claim>
        ensures { option_copied result ≡ claim_numbered self.now.claims number }
    {
        match self.claims.get(place_of(self.claims.as_slice(), number)) {
            Some(held) => Some(&held.claim),
            None => None,
        }
    }

    /// The number of the claim of this choice, if one stands. It looks at one claim after another.
    pub fn of_choice(&self, choice: &Choice) -> Option<u64>
        ensures { result ≡ number_of_choice self.now.claims choice.now }
    {
        number_of(self.claims.as_slice(), choice)
    }

    /// Whether no further claim has room: there is no further number, or 4,095 claims stand.
    pub fn is_full(&self) -> bool
        ensures { result ≡ is_full self.now.given (length self.now.claims) }
    {
        self.given == u64::MAX || self.claims.len() == MOST
    }

    /// Room for one more claim. The words of the locks are laid out by the first call; on average a later
    /// one takes a constant time. After want of memory all is as before.
    pub fn reserve(&mut self) -> Result<(), OutOfMemory>
        ensures claims { self.new.claims ≡ self.old.claims }
        ensures footprints { self.new.footprints ≡ self.old.footprints }
        ensures given { self.new.given ≡ self.old.given }
        ensures kept { self.old.spare ≤ self.new.spare }
        ensures ok { OnOk result (0 < self.new.spare) }
        ensures err { OnErr result (self.new ≡ self.old) }
    {
        self.claims.reserve(1)?;
        lay_out(&mut self.words)?;
        self.spare = self.spare.max(1);
        Ok(())
    }

    /// Adds a claim of the candidate with the next number, which it answers, and takes the locks of its
    /// footprint. It touches one word for each demand, and takes no memory.
    pub fn add(&mut self, candidate: Candidate, footprint: Vec<(u32, Mode)>) -> u64
        requires room { 0 < self.old.spare }
        requires not_full { is_full self.old.given (length self.old.claims) ≡ false }
        requires footprint { IsFootprint footprint.items }
        ensures number { result ≡ self.old.given + 1 }
        ensures claims { self.new.claims
            ≡ self.old.claims ++ record { number = self.old.given + 1; candidate = candidate } ∷ [] }
        ensures footprints { self.new.footprints ≡ self.old.footprints ++ footprint.items ∷ [] }
        ensures given { self.new.given ≡ self.old.given + 1 }
        ensures spare { self.new.spare + 1 ≡ self.old.spare }
    {
        add_amounts(self.words.as_mut_slice(), footprint.as_slice());
        self.given += 1;
        self.spare -= 1;
        self.claims.push_reserved(Held {
            claim: Claim {
                number: self.given,
                candidate,
            },
            footprint: Sequence::from_vec(footprint),
        });
        self.given
    }

    /// Takes the claim with this number away, gives its locks back, and says whether it stood. It looks
    /// at one claim after another, and at each demand of its footprint once. It takes no memory.
    pub fn remove(&mut self, number: u64) -> bool
        ensures found { result ≡ is_some (claim_numbered self.old.claims number) }
        ensures claims { self.new.claims ≡ claims_without self.old number }
        ensures footprints { self.new.footprints ≡ footprints_without self.old number }
        ensures given { self.new.given ≡ self.old.given }
        ensures spare { self.new.spare ≡ self.old.spare + cond result 1 0 }
    {
        let place = place_of(self.claims.as_slice(), number);
        if place == self.claims.len() {
            return false;
        }
        let held = self.claims.remove(place);
        subtract_amounts(self.words.as_mut_slice(), held.footprint.as_slice());
        self.spare += 1;
        true
    }

    /// Takes all claims away, so that numbers are given from 1 on again. It sets each word to 0, and takes
    /// no memory.
    pub fn clear(&mut self)
        ensures claims { self.new.claims ≡ [] }
        ensures footprints { self.new.footprints ≡ [] }
        ensures given { self.new.given ≡ 0 }
        ensures spare { self.new.spare ≡ self.old.spare + length self.old.claims }
    {
        self.spare += self.claims.len();
        self.claims.clear();
        free_all(self.words.as_mut_slice());
        self.given = 0;
    }
}
