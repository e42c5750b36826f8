ghost use Rattle.std.specs.Prelude.{◌≡◌, ◌+◌, ◌<◌, ◌^◌, [], ◌∷◌, ◌++◌, length, unwrap_or, slice_index, IfSome, OnOk, OnErr};
ghost use Rattle.shared_trie.specs.Chains.{AreChained, IsLastWith, bucket_in};
ghost use Rattle.shared_trie.specs.ChainLinks.{befores_of, hashes_of};

use phoneme::Memory;
use std::alloc::Global;
use std::marker::Model;

/// How many buckets are taken at first.
const FEWEST_BUCKETS: usize = 1024;

/// The numbers from 0 on by their hashes. Contracts see it as the list of the hashes, each at its number.
#[derive(Drop)]
pub(crate) struct Chains {
    /// For each bucket of hashes one more than the last number in it, or 0.
    heads: Vec<u32>,
    links: Vec<Link>,
}

/// A number's hash, and one more than the number before it in the same bucket, or 0.
#[derive(Clone, Copy)]
struct Link {
    hash: u32,
    before: u32,
}

impl Model for Chains {
    ghost use Rattle.std.specs.Prelude.{List, ℕ};
    ghost use Rattle.shared_trie.specs.Chains.{AreChained};
    ghost use Rattle.shared_trie.specs.ChainLinks.{befores_of, hashes_of};

    ghost Value = { List ℕ };

    ghost view = { λ c. hashes_of c.links.items };

    ghost invariant = { λ c. AreChained c.heads.items (hashes_of c.links.items) (befores_of c.links.items) };
}

/// The bucket of the hash among so many.
fn bucket_of(hash: u32, buckets: usize) -> usize
    requires { 0 < buckets }
    ensures within { result < buckets }
    ensures value { result ≡ bucket_in buckets hash }
{
    hash as usize & (buckets - 1)
}

/// Gives the next number this hash.
fn put(heads: &mut Vec<u32>, links: &mut Vec<Link>, hash: u32) -> Result<(), Memory>
    requires chained { AreChained heads.old.items (hashes_of links.old.items) (befores_of links.old.items) }
    requires some { 0 < length heads.old.items }
    requires few { length links.old.items + 1 < 2 ^ 32 }
    ensures chained { AreChained heads.new.items (hashes_of links.new.items) (befores_of links.new.items) }
    ensures size { length heads.new.items ≡ length heads.old.items }
    ensures ok { OnOk result (hashes_of links.new.items ≡ hashes_of links.old.items ++ hash ∷ []) }
    ensures unchanged { OnErr result (links.new.items ≡ links.old.items) }
{
    let bucket = bucket_of(hash, heads.len());
    let before = heads[bucket];
    links.push(Link { hash, before })?;
    heads[bucket] = links.len() as u32;
    Ok(())
}

/// Takes twice as many buckets where there are no more buckets than numbers.
fn make_room(heads: &mut Vec<u32>, links: &mut Vec<Link>) -> Result<(), Memory>
    requires { AreChained heads.old.items (hashes_of links.old.items) (befores_of links.old.items) }
    ensures chained { AreChained heads.new.items (hashes_of links.new.items) (befores_of links.new.items) }
    ensures some { OnOk result (0 < length heads.new.items) }
    ensures same { hashes_of links.new.items ≡ hashes_of links.old.items }
{
    if links.len() < heads.len() {
        return Ok(());
    }
    let alloc = *heads.allocator();
    let size = (2 * links.len()).max(FEWEST_BUCKETS);
    let mut more_heads = vec![in alloc; 0; size]?;
    let mut more_links = Vec::with_capacity(alloc, size)?;
    for link in &*links {
        put(&mut more_heads, &mut more_links, link.hash)?;
    }
    *heads = more_heads;
    *links = more_links;
    Ok(())
}

impl Chains {
    /// No numbers. Takes no memory.
    pub(crate) fn new(alloc: Global) -> Chains
        ensures { result ≡ [] }
    {
        Chains {
            heads: Vec::new(alloc),
            links: Vec::new(alloc),
        }
    }

    /// The last number with the hash, of all numbers, or of those before one with the hash.
    pub(crate) fn last_with(&self, hash: u32, before: Option<u32>) -> Option<u32>
        requires { IfSome before (λ number. (number < length self.now) × (slice_index self.now number ≡ hash)) }
        ensures { IsLastWith self.now hash (unwrap_or before (length self.now)) result }
    {
        if self.heads.is_empty() {
            return None;
        }
        let mut place = match before {
            Some(number) => self.links[number as usize].before,
            None => self.heads[bucket_of(hash, self.heads.len())],
        };
        while place > 0 {
            let link = self.links[place as usize - 1];
            if link.hash == hash {
                return Some(place - 1);
            }
            place = link.before;
        }
        None
    }

    /// Gives the next number this hash. Refused only for want of memory, and then the numbers are as they were.
    pub(crate) fn push(&mut self, hash: u32) -> Result<(), Memory>
        requires { length self.old + 1 < 2 ^ 32 }
        ensures ok { OnOk result (self.new ≡ self.old ++ hash ∷ []) }
        ensures unchanged { OnErr result (self.new ≡ self.old) }
    {
        make_room(&mut self.heads, &mut self.links)?;
        put(&mut self.heads, &mut self.links, hash)
    }
}
