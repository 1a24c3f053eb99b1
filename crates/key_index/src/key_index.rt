//! A list of keys that grows, with an index over it.
ghost use Rattle.std.specs.Prelude.{◌≡◌, ◌<◌, ◌++◌, ◌∷◌, [], Some, IfOk, OnOk, OnErr, IfSome, length, slice_get, slice_index, unwrap_or};
ghost use Rattle.key_index.specs.Index as Index;
ghost use Rattle.key_index.specs.Places.{IsLastPlace};

use std::alloc::{AllocError, Global};
use std::marker::Model;

/// How many buckets an index begins with.
const BUCKETS: usize = 16;

/// Keys in the order in which they came. Contracts see the list.
///
/// Keys of one bucket are chained, the newest first, so that a question goes over these alone.
#[derive(Drop)]
pub struct KeyIndex {
    keys: Vec<u64>,
    /// For each bucket one more than the place of its newest key, or 0.
    heads: Vec<usize>,
    /// For each key one more than the place of the next older one of its bucket, or 0.
    links: Vec<usize>,
}

impl Model for KeyIndex {
    ghost use Rattle.std.specs.Prelude.{ℕ, List};
    ghost use Rattle.key_index.specs.Index.{AreChains};

    ghost Value = { List ℕ };

    ghost view = { λ t. t.keys.items };

    ghost invariant = { λ t. AreChains t.keys.items t.heads.items t.links.items };
}

// The bucket of a key among so many.
fn bucket_of(key: u64, count: usize) -> usize
    requires some { 0 < count }
    ensures is { result ≡ Index.bucket_of count key }
    ensures below { result < count }
{
    (key % count as u64) as usize
}

impl KeyIndex {
    /// No keys.
    pub fn new(alloc: Global) -> Result<KeyIndex, AllocError>
        ensures { IfOk result (λ t. t ≡ []) }
    {
        KeyIndex::with_buckets(alloc, BUCKETS)
    }

    fn with_buckets(alloc: Global, count: usize) -> Result<KeyIndex, AllocError>
        requires some { 0 < count }
        ensures { IfOk result (λ t. t ≡ []) }
    {
        Ok(KeyIndex {
            keys: Vec::new(alloc),
            heads: vec![in alloc; 0; count]?,
            links: Vec::new(alloc),
        })
    }

    /// Adds a key after all others. Where it fails, nothing changes.
    pub fn push(&mut self, key: u64) -> Result<(), AllocError>
        ensures ok { OnOk result (self.new ≡ self.old ++ key ∷ []) }
        ensures err { OnErr result (self.new ≡ self.old) }
    {
        if self.keys.len() == self.heads.len() {
            let wide = self.widened()?;
            *self = wide;
        }
        self.append(key)
    }

    /// The last place of the key.
    pub fn last(&self, key: u64) -> Option<usize>
        ensures { IsLastPlace self.now key (length self.now) result }
    {
        self.last_before(key, None)
    }

    /// The last place before this one that has the same key.
    pub fn before(&self, at: usize) -> Option<usize>
        requires { at < length self.now }
        ensures { IsLastPlace self.now (slice_index self.now at) at result }
    {
        self.last_before(self.keys[at], Some(at))
    }

    // The same keys with twice as many buckets.
    fn widened(&self) -> Result<KeyIndex, AllocError>
        ensures { IfOk result (λ t. t ≡ self.now) }
    {
        let alloc = *self.keys.allocator();
        let mut wide = KeyIndex::with_buckets(alloc, 2 * self.heads.len())?;
        for i in 0..self.keys.len() {
            wide.append(self.keys[i])?;
        }
        Ok(wide)
    }

    // Adds a key to the chain of its bucket, among as many buckets as there are.
    fn append(&mut self, key: u64) -> Result<(), AllocError>
        ensures ok { OnOk result (self.new ≡ self.old ++ key ∷ []) }
        ensures err { OnErr result (self.new ≡ self.old) }
    {
        self.keys.reserve(1)?;
        self.links.reserve(1)?;
        let bucket = bucket_of(key, self.heads.len());
        self.links.push_reserved(self.heads[bucket]);
        self.keys.push_reserved(key);
        self.heads[bucket] = self.keys.len();
        Ok(())
    }

    // The last place of the key before the given one, which has it too, or else of all.
    fn last_before(&self, key: u64, given: Option<usize>) -> Option<usize>
        requires { IfSome given (λ i. slice_get self.now i ≡ Some key) }
        ensures { IsLastPlace self.now key (unwrap_or given (length self.now)) result }
    {
        let mut at = match given {
            Some(i) => self.links[i],
            None => self.heads[bucket_of(key, self.heads.len())],
        };
        while at > 0 {
            if self.keys[at - 1] == key {
                return Some(at - 1);
            }
            at = self.links[at - 1];
        }
        None
    }
}
