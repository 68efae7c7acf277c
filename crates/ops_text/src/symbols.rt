//! Names and their numbers. A store of names only grows, so a number stands for its name for good.

ghost use Rattle.std.specs.Prelude.{◌≡◌, ℕ, ◌+◌, ◌-◌, ◌^◌, ◌<◌, ◌≤◌, false, [], ◌∷◌, ◌++◌, codes, length, slice_get, OnOk, OnErr, IfOk, IfSome, is_some};
ghost use Rattle.std.specs.List.{list_any};
ghost use Rattle.std.specs.Str.{bytes_eq};
ghost use Rattle.ops_text.specs.Names.{AreNames, KeepsNumbers, number_of, with_name};

use crate::OutOfMemory;
use indexmap::IndexSet;
use std::alloc::Global;
use std::marker::Model;

/// Names in the order of their arrival. A name's number is its place, from 0.
#[derive(Debug, Drop)]
pub struct Symbols {
    names: IndexSet<Vec<u8>>,
}

impl Model for Symbols {
    ghost use Rattle.std.specs.Prelude.{ℕ, List, map};
    ghost use Rattle.ops_text.specs.Names.{AreNames, Names};

    ghost Value = { List (List ℕ) };

    ghost view = { λ s. map (λ name. name.items) s.names.keys };

    ghost invariant = { λ s. AreNames (map (λ name. name.items) s.names.keys) };
}

impl Symbols {
    /// A store that holds `nil` alone.
    pub fn new(alloc: Global) -> Result<Symbols, OutOfMemory>
        ensures { IfOk result (λ symbols. symbols ≡ codes "nil" ∷ []) }
    {
        let mut names = IndexSet::new(alloc);
        names.insert(Vec::from_slice(alloc, b"nil")?)?;
        Ok(Symbols { names })
    }

    /// How many names there are.
    pub fn len(&self) -> u32
        ensures len { result ≡ length self.now }
        ensures kept { AreNames self.now }
    {
        self.names.len() as u32
    }

    /// The bytes of the name with this number.
    pub fn bytes(&self, number: u32) -> &[u8]
        requires { number < length self.now }
        ensures { slice_get self.now number ≡ Some result.now }
    {
        self.names.as_slice()[number as usize].as_slice()
    }

    fn find(&self, bytes: &[u8]) -> Option<u32>
        ensures known { is_some result ≡ list_any (bytes_eq bytes.now) self.now }
        ensures number { IfSome result (λ number. number ≡ number_of self.now bytes.now) }
    {
        match self.names.get_index_of(bytes) {
            Some(at) => Some(at as u32),
            None => None,
        }
    }

    /// The number of a name, which is a new one where the name is new. After want of memory all is
    /// as before. It takes the same time whatever the number of names.
    pub fn number(&mut self, alloc: Global, bytes: &[u8]) -> Result<u32, OutOfMemory>
        requires { length self.old < 2 ^ 32 - 1 }
        ensures ok { IfOk result (λ number. number ≡ number_of self.old bytes.now) }
        ensures names { OnOk result (self.new ≡ with_name self.old bytes.now) }
        ensures given { IfOk result (λ number. slice_get self.new number ≡ Some bytes.now) }
        ensures err { OnErr result (self.new ≡ self.old) }

        // In both cases each number that was given stands.
        ensures stand { KeepsNumbers self.old self.new }
        ensures room { length self.new ≤ length self.old + 1 }
    {
        match self.find(bytes) {
            Some(number) => Ok(number),
            None => self.add(alloc, bytes),
        }
    }

    fn add(&mut self, alloc: Global, bytes: &[u8]) -> Result<u32, OutOfMemory>
        requires few { length self.old < 2 ^ 32 - 1 }
        requires new { list_any (bytes_eq bytes.now) self.old ≡ false }
        ensures ok { IfOk result (λ number. number ≡ length self.old) }
        ensures names { OnOk result (self.new ≡ self.old ++ bytes.now ∷ []) }
        ensures given { IfOk result (λ number. slice_get self.new number ≡ Some bytes.now) }
        ensures err { OnErr result (self.new ≡ self.old) }
    {
        let number = self.names.len() as u32;
        self.names.insert(Vec::from_slice(alloc, bytes)?)?;
        Ok(number)
    }
}
