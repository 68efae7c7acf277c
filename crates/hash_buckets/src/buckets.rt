//! Numbers under hashes, in one arena of links for all.

ghost use Rattle.std.specs.Prelude.{◌≡◌, ◌+◌, ◌<◌, ◌≤◌, ◌^◌, [], ◌∷◌, ◌++◌, IfOk, OnErr, OnOk, filter, length, reverse};
ghost use Rattle.hash_buckets.specs.Buckets.{numbers_of, stays};
ghost use Rattle.hash_buckets.specs.Links.{entries_of};

use crate::links::{Link, Living, UNLINKED, clean_bucket};
use indexmap::IndexMap;
use ops_text::OutOfMemory;
use std::alloc::Global;
use std::marker::Model;

/// Numbers, each filed under a 64-bit hash.
#[derive(Drop)]
pub struct Buckets {
    /// By hash, the newest link under it: its place plus 1, or 0 for none.
    newest: IndexMap<u64, u32>,
    /// All links in the order of filing, and among them some that are unlinked.
    links: Vec<Link>,
}

impl Model for Buckets {
    ghost use Rattle.std.specs.Prelude.{length};
    ghost use Rattle.hash_buckets.specs.Buckets.{Buckets};
    ghost use Rattle.hash_buckets.specs.Links.{AreKnown, AreLinked, entries_of};

    ghost Value = { Buckets };

    ghost view = { λ b. record { entries = entries_of b.links.items; links = length b.links.items } };

    ghost invariant = { λ b. AreLinked b.links.items × AreKnown b.newest.entries b.links.items };
}

/// The numbers under one hash that are left to tell, the newest first.
#[derive(Drop)]
pub struct Bucket<'a> {
    links: &'a [Link],
    hash: u64,
    at: u32,
}

impl<'a> Model for Bucket<'a> {
    ghost use Rattle.std.specs.Prelude.{◌≡◌, ℕ, List};
    ghost use Rattle.hash_buckets.specs.Links.{AreLinked, bucket, newest};

    ghost Value = { List ℕ };

    ghost view = { λ b. bucket b.hash b.links.now b.at };

    ghost invariant = { λ b. AreLinked b.links.now × (newest b.hash b.links.now b.at ≡ b.at) };
}

impl<'a> Iterator for Bucket<'a> {
    type Item = u32;

    ghost use Rattle.std.specs.Iterator.{YieldsFirst, item_count};

    ghost next_gives = { YieldsFirst (λ s. s) };

    ghost remaining = { item_count (λ s. s) };

    fn next(&mut self) -> Option<u32> {
        if self.at == 0 {
            return None;
        }
        let link = &self.links[self.at as usize - 1];
        self.at = link.next;
        Some(link.number)
    }
}

impl Buckets {
    /// No numbers, which takes no memory.
    pub fn new(alloc: Global) -> Buckets
        ensures entries { result.entries ≡ [] }
        ensures links { result.links ≡ 0 }
    {
        Buckets {
            newest: IndexMap::new(alloc),
            links: Vec::new(alloc),
        }
    }

    /// Files a number under a hash. On average it takes the same time however many numbers there are. It
    /// also fails where there are 2^32 - 1 links.
    pub fn push(&mut self, hash: u64, number: u32) -> Result<(), OutOfMemory>
        ensures ok { OnOk result (self.new.entries ≡ self.old.entries ++ (hash, number) ∷ []) }
        ensures links { OnOk result (self.new.links ≡ self.old.links + 1) }
        ensures err { OnErr result (self.new ≡ self.old) }
    {
        let place = self.links.len();
        if place >= u32::MAX as usize {
            return Err(OutOfMemory);
        }
        self.links.reserve(1)?;
        let older = self.newest.insert(hash, place as u32 + 1)?;
        self.links.push_reserved(Link {
            hash,
            number,
            next: older.unwrap_or(0),
        });
        Ok(())
    }

    /// The numbers under a hash, the newest first, but for those that were cleaned away. It takes no
    /// memory, and a constant time for each number.
    pub fn bucket(&self, hash: u64) -> Bucket<'_>
        ensures numbers { result ≡ reverse (numbers_of self.now.entries hash) }
        ensures few { length result < 2 ^ 32 }
    {
        Bucket {
            links: self.links.as_slice(),
            hash,
            at: self.newest.get(&hash).copied().unwrap_or(0),
        }
    }

    /// Takes the numbers that don't live out of the bucket of this hash. It looks at each number of that
    /// bucket once, and takes no memory.
    pub fn clean<L: Living>(&mut self, hash: u64, living: &L)
        ensures entries { self.new.entries ≡ filter (stays hash (L.lives living.now)) self.old.entries }
        ensures links { self.new.links ≡ self.old.links }
    {
        if let Some(newest) = self.newest.get_mut(&hash) {
            *newest = clean_bucket(self.links.as_mut_slice(), hash, *newest, living);
        }
    }

    /// How many links there are, the unlinked ones too. Where they are many more than the numbers, pack.
    pub fn len(&self) -> usize
        ensures links { result ≡ self.now.links }
        ensures enough { length self.now.entries ≤ result }
    {
        self.links.len()
    }

    /// Files the numbers that live anew, and nothing else. It looks at each link once, and frees the memory
    /// of the others. After want of memory all is as before.
    pub fn pack<L: Living>(&mut self, alloc: Global, living: &L) -> Result<(), OutOfMemory>
        ensures ok { OnOk result (self.new.entries ≡ filter (λ e. L.lives living.now e.1) self.old.entries) }
        ensures links { OnOk result (self.new.links ≡ length self.new.entries) }
        ensures err { OnErr result (self.new ≡ self.old) }
    {
        *self = packed(alloc, self.links.as_slice(), living)?;
        Ok(())
    }
}

/// The numbers of these links that are linked and live, filed anew.
fn packed<L: Living>(alloc: Global, links: &[Link], living: &L) -> Result<Buckets, OutOfMemory>
    ensures entries { IfOk result (λ b. b.entries ≡ filter (λ e. L.lives living.now e.1) (entries_of links.now)) }
    ensures links { IfOk result (λ b. b.links ≡ length b.entries) }
{
    let mut buckets = Buckets::new(alloc);
    for link in links {
        if link.next != UNLINKED && living.is_living(link.number) {
            buckets.push(link.hash, link.number)?;
        }
    }
    Ok(buckets)
}
