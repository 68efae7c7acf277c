//! Names that are found without a search through all of them.

ghost use Rattle.std.specs.Prelude.{◌≡◌, None, [], ◌∷◌, ◌++◌, length, OnOk, OnErr};
ghost use Rattle.rule_checker.specs.Names.{number_in, number_of};

use indexmap::{IndexMap, IndexSet};
use ops_text::OutOfMemory;
use std::alloc::Global;
use std::marker::Model;

/// Distinct names in the order in which they came. A name's number is its place, from 0.
#[derive(Drop)]
pub struct Names {
    names: IndexSet<u32>,
}

impl Model for Names {
    ghost use Rattle.std.specs.Prelude.{ℕ, List};

    ghost Value = { List ℕ };

    ghost view = { λ n. n.names.keys };
}

impl Names {
    pub fn new(alloc: Global) -> Names
        ensures { result ≡ [] }
    {
        Names {
            names: IndexSet::new(alloc),
        }
    }

    /// The number of a name, if it is there. On average it takes the same time however many names there are.
    pub fn number(&self, name: u32) -> Option<usize>
        ensures { result ≡ number_in self.now name }
    {
        self.names.get_index_of(&name)
    }

    /// Adds a name that is not there.
    pub fn add(&mut self, name: u32) -> Result<(), OutOfMemory>
        requires { number_in self.old name ≡ None }
        ensures ok { OnOk result (self.new ≡ self.old ++ name ∷ []) }
        ensures err { OnErr result (self.new ≡ self.old) }
    {
        self.names.insert(name)?;
        Ok(())
    }
}

/// Distinct names in the order in which they came, each with a number.
#[derive(Drop)]
pub struct Numbering {
    numbers: IndexMap<u32, u32>,
}

impl Model for Numbering {
    ghost use Rattle.std.specs.Prelude.{ℕ, List};

    ghost Value = { List (ℕ × ℕ) };

    ghost view = { λ n. n.numbers.entries };
}

impl Numbering {
    pub fn new(alloc: Global) -> Numbering
        ensures { result ≡ [] }
    {
        Numbering {
            numbers: IndexMap::new(alloc),
        }
    }

    /// The number of a name, if it is there. On average it takes the same time however many names there are.
    pub fn number(&self, name: u32) -> Option<u32>
        ensures { result ≡ number_of self.now name }
    {
        self.numbers.get(&name).copied()
    }

    /// Adds a name that is not there.
    pub fn add(&mut self, name: u32, number: u32) -> Result<(), OutOfMemory>
        requires { number_of self.old name ≡ None }
        ensures { OnOk result (self.new ≡ self.old ++ (name, number) ∷ []) }
    {
        self.numbers.insert(name, number)?;
        Ok(())
    }

    /// Takes all names away.
    pub fn clear(&mut self)
        ensures { self.new ≡ [] }
    {
        self.numbers.clear();
    }
}
