//! Places by the value that their elements have at an attribute of their class.

ghost use Rattle.std.specs.Prelude.{◌≡◌, [], ◌∷◌, ◌++◌, filter, if◌then◌else◌, OnErr, OnOk};
ghost use Rattle.working_memory.specs.declared.groups.Key.{Key};
ghost use Rattle.working_memory.specs.Groups.{code_of, group, same_code, same_key};
ghost use Rattle.rule_base.specs.Numbers.{has_number};

use crate::memory::Memory;
use indexmap::IndexMap;
use ops_text::OutOfMemory;
use rule_base::Value;
use std::alloc::Global;
use std::marker::Model;

/// What elements of a group share: their class, and the value that they have at an attribute of it.
#[derive(Clone, Copy, Debug)]
pub struct Key {
    pub class: u32,
    pub attribute: u32,
    pub value: Value,
}

/// The places of the elements with one key, in the order in which they were added.
#[derive(Drop)]
struct Group {
    places: Vec<usize>,
}

impl Model for Group {
    ghost use Rattle.std.specs.Prelude.{ℕ, List};

    ghost Value = { List ℕ };

    ghost view = { λ g. g.places.items };
}

impl Group {
    fn new(alloc: Global) -> Group
        ensures { result ≡ [] }
    {
        Group {
            places: Vec::new(alloc),
        }
    }

    fn as_slice(&self) -> &[usize]
        ensures { result.now ≡ self.now }
    {
        self.places.as_slice()
    }

    fn push(&mut self, place: usize) -> Result<(), OutOfMemory>
        ensures ok { OnOk result (self.new ≡ self.old ++ place ∷ []) }
        ensures err { OnErr result (self.new ≡ self.old) }
    {
        self.places.push(place)?;
        Ok(())
    }

    fn clean(&mut self, memory: &Memory)
        ensures { self.new ≡ filter (has_number memory.now.places) self.old }
    {
        self.places.retain(|place| memory.has(*place));
    }
}

/// Groups of places by their keys. A place that has gone stays in its group until that is cleaned.
#[derive(Drop)]
pub struct Groups {
    groups: IndexMap<(u32, u32, bool, i64), Group>,
}

impl Model for Groups {
    ghost use Rattle.working_memory.specs.Groups.{Groups};

    ghost Value = { Groups };

    ghost view = { λ g. g.groups.entries };
}

impl Groups {
    /// No places, which takes no memory.
    pub fn new(alloc: Global) -> Groups
        ensures { (k : Key) → group result k ≡ [] }
    {
        Groups {
            groups: IndexMap::new(alloc),
        }
    }

    /// Adds a place at the end of the group with this key. After want of memory all is as before.
    pub fn add(&mut self, alloc: Global, key: Key, place: usize) -> Result<(), OutOfMemory>
        ensures ok { OnOk result ((k : Key) → group self.new k
            ≡ (if same_key key k then group self.old k ++ place ∷ [] else group self.old k)) }
        ensures err { OnErr result ((k : Key) → group self.new k ≡ group self.old k) }
    {
        let code = code_of(key);
        match self.groups.get_mut(&code) {
            Some(group) => group.push(place),
            None => {
                let mut group = Group::new(alloc);
                group.push(place)?;
                self.groups.insert(code, group)?;
                Ok(())
            }
        }
    }

    /// The places that were added with this key, but for those that were cleaned away. On average it
    /// takes the same time however many keys there are.
    pub fn group(&self, key: Key) -> &[usize]
        ensures { result.now ≡ group self.now key }
    {
        match self.groups.get(&code_of(key)) {
            Some(group) => group.as_slice(),
            None => &[],
        }
    }

    /// Takes the places that aren't in working memory out of the group with this key. It looks at each
    /// place of that group once, and takes no memory.
    pub fn clean(&mut self, key: Key, memory: &Memory)
        ensures { (k : Key) → group self.new k
            ≡ (if same_key key k then filter (has_number memory.now.places) (group self.old k) else group self.old k) }
    {
        match self.groups.get_mut(&code_of(key)) {
            Some(group) => group.clean(memory),
            None => {}
        }
    }
}

/// A key as numbers, which a map can hold: its class, its attribute, whether its value is a symbol, and
/// the value's number. Only the same keys have the same numbers.
fn code_of(key: Key) -> (u32, u32, bool, i64)
    ensures code { result ≡ code_of key }
    ensures apart { (other : Key) → same_code result (code_of other) ≡ same_key key other }
{
    let (is_symbol, number) = match key.value {
        Value::Int(number) => (false, number),
        Value::Sym(symbol) => (true, i64::from(symbol)),
    };
    (key.class, key.attribute, is_symbol, number)
}
