//! Links in an arena, and the walk along those of one hash.

ghost use Rattle.std.specs.Prelude.{◌≡◌, ℕ, Bool, ◌-◌, ◌<◌, ◌≤◌, filter, length, false, ◌==◌};
ghost use Rattle.hash_buckets.specs.Buckets.{stays};
ghost use Rattle.hash_buckets.specs.Links.{AreLinked, entries_of, first_after, newest, with_next, with_next_after};

/// What tells which numbers live.
pub trait Living {
    /// Whether a number lives.
    ghost lives: { Self → ℕ → Bool };

    /// Whether this number lives.
    fn is_living(&self, number: u32) -> bool
        ensures { result ≡ lives self.now number };
}

/// The next link of one that is unlinked.
pub(crate) const UNLINKED: u32 = u32::MAX;

/// A number under a hash.
#[derive(Clone, Copy)]
pub(crate) struct Link {
    pub(crate) hash: u64,
    pub(crate) number: u32,
    /// The next older link with the same hash: its place plus 1, or 0 for none. Unlinked ones have
    /// `UNLINKED`.
    pub(crate) next: u32,
}

/// Unlinks the numbers under this hash that don't live, and answers the newest link that is left. It is
/// given the newest one before.
pub(crate) fn clean_bucket<L: Living>(links: &mut [Link], hash: u64, head: u32, living: &L) -> u32
    requires linked { AreLinked links.old }
    requires head { head ≡ newest hash links.old (length links.old) }
    ensures linked { AreLinked links.new }
    ensures entries { entries_of links.new ≡ filter (stays hash (L.lives living.now)) (entries_of links.old) }
    ensures newest { result ≡ newest hash links.new (length links.new) }
    ensures others { (h : ℕ) → (h == hash) ≡ false → newest h links.new (length links.new) ≡ newest h links.old (length links.old) }
{
    let mut first = head;
    let mut kept = 0;
    let mut at = head;
    while at != 0 {
        let link = &links[at as usize - 1];
        let Link { number, next, .. } = *link;
        if living.is_living(number) {
            kept = at;
        } else {
            first = unlink(links, first, kept, at, next);
        }
        at = next;
    }
    first
}

/// Unlinks a link. The link at `kept`, or where that is 0 the bucket itself, then leads to the next one.
/// It answers the newest link, which was `first`.
fn unlink(links: &mut [Link], first: u32, kept: u32, at: u32, next: u32) -> u32
    requires at { 0 < at }
    requires within { at ≤ length links.old }
    requires kept { kept ≤ length links.old }
    ensures links { links.new ≡ with_next_after (with_next links.old (at - 1) UNLINKED) kept next }
    ensures first { result ≡ first_after kept first next }
{
    let link = &mut links[at as usize - 1];
    link.next = UNLINKED;
    if kept == 0 {
        return next;
    }
    let link = &mut links[kept as usize - 1];
    link.next = next;
    first
}
