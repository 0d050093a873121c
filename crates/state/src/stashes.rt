// The table of stashes: a flat array of hash bytes, one of sizes, and how many entries are in use. It is read and changed where it lies.
ghost use Rattle.std.specs.Prelude.{◌≡◌, ◌+◌, ◌-◌, ◌<◌, min, take};
ghost use Rattle.state.specs.Limits.{most_stashes};
ghost use Rattle.state.specs.Stashes.{entry_hash, entries, empty_table, held_in, same, find_in, is_held, held_twice, holds_empty, size_at, blocks_held};
ghost use Rattle.state.specs.Stashes.{holding, releasing};
ghost use Rattle.state.specs.Sums.{bounded};

use crate::limits::{HASH_BYTES, MOST_STASHES, TABLE_BYTES};
use crate::sums::bounded_sum;

// Two hashes are the same.
#[tactic(auto, using(crate::proofs::StashLaws::same_pointwise))]
pub fn same_hash(a: &[u8], b: &[u8]) -> bool
    ensures { result ≡ same a.now b.now }
{
    a == b
}

// The entries lie in two flat arrays, as `muongrabi_save` and `muongrabi_restore` lend them and a saved form has them.
#[derive(Clone, Copy)]
pub struct Table {
    pub hashes: [u8; TABLE_BYTES],
    pub sizes: [usize; MOST_STASHES],
    pub count: usize,
}

impl Table {
    // With nothing held.
    pub fn new() -> Table
        ensures { result ≡ empty_table }
    {
        Table {
            hashes: [0; TABLE_BYTES],
            sizes: [0; MOST_STASHES],
            count: 0,
        }
    }

    // How many stashes are held: a count past the arrays counts as all of them.
    pub fn held_count(&self) -> usize
        ensures { result ≡ min self.now.count most_stashes }
    {
        self.count.min(MOST_STASHES)
    }

    // The hash of entry j.
    fn hash(&self, j: usize) -> &[u8]
        requires { j < most_stashes }
        ensures { result.now ≡ entry_hash self.now.hashes j }
    {
        let start = HASH_BYTES * j;
        &self.hashes[start..start + HASH_BYTES]
    }

    // Where a stash is among those held.
    #[tactic(auto, using(crate::proofs::TableLaws::looking_steps))]
    pub fn find(&self, hash: [u8; HASH_BYTES]) -> Option<usize>
        ensures { result ≡ find_in (held_in self.now) hash }
    {
        for j in 0..self.held_count() {
            if same_hash(self.hash(j), &hash) {
                return Some(j);
            }
        }
        None
    }

    // The blocks of stash j, none where there is no such stash.
    #[tactic(auto, using(crate::proofs::TableLaws::table_steps))]
    pub fn blocks(&self, j: usize) -> usize
        ensures { result ≡ size_at (held_in self.now) j }
    {
        if j < self.held_count() {
            self.sizes[j]
        } else {
            0
        }
    }

    // The blocks of the first n stashes, up to the bound.
    #[tactic(auto, using(crate::proofs::TableLaws::table_steps))]
    pub fn blocks_before(&self, n: usize) -> usize
        ensures { result ≡ bounded (blocks_held (take n (held_in self.now))) }
    {
        let mut sum = 0;
        for size in &self.sizes[..n.min(self.held_count())] {
            sum = bounded_sum(sum, *size);
        }
        sum
    }

    // The hash of entry j is also that of a later one.
    #[tactic(auto, using(crate::proofs::TableLaws::looking_steps))]
    fn holds_again(&self, j: usize) -> bool
        requires { j < min self.now.count most_stashes }
        ensures { result ≡ is_held (entries self.now.hashes self.now.sizes (j + 1) (min self.now.count most_stashes - (j + 1))) (entry_hash self.now.hashes j) }
    {
        let hash = self.hash(j);
        for k in j + 1..self.held_count() {
            if same_hash(self.hash(k), hash) {
                return true;
            }
        }
        false
    }

    // Some hash is held twice.
    #[tactic(auto, using(crate::proofs::TableLaws::looking_steps))]
    pub fn holds_twice(&self) -> bool
        ensures { result ≡ held_twice (held_in self.now) }
    {
        for j in 0..self.held_count() {
            if self.holds_again(j) {
                return true;
            }
        }
        false
    }

    // Some stash has no blocks.
    pub fn holds_empty(&self) -> bool
        ensures { result ≡ holds_empty (held_in self.now) }
    {
        self.sizes[..self.held_count()].contains(&0)
    }

    // One stash more, where there is room for it.
    #[tactic(auto, using(crate::proofs::TableLaws::table_steps))]
    pub fn hold(&mut self, hash: [u8; HASH_BYTES], blocks: usize)
        ensures { self.new ≡ holding self.old hash blocks }
    {
        if self.count < MOST_STASHES {
            let start = HASH_BYTES * self.count;
            self.hashes[start..start + HASH_BYTES].copy_from_slice(&hash);
            self.sizes[self.count] = blocks;
            self.count += 1;
        }
    }

    // The stash at j goes, and the younger ones move down. With no such stash, or a count past the arrays, nothing changes.
    #[tactic(auto, using(crate::proofs::TableLaws::table_steps))]
    pub fn release(&mut self, j: usize)
        ensures { self.new ≡ releasing self.old j }
    {
        if j < self.count && self.count <= MOST_STASHES {
            self.hashes.copy_within(
                HASH_BYTES * (j + 1)..HASH_BYTES * self.count,
                HASH_BYTES * j,
            );
            self.sizes.copy_within(j + 1..self.count, j);
            self.count -= 1;
        }
    }
}
