// Kept words where the power fails after so many stores.
ghost use Rattle.std.specs.Prelude.{◌≡◌, ◌+◌, ◌<◌, ◌&&◌, ◌==◌, not, true, MatchResult};
ghost use Rattle.model.specs.Memory.{stored};

use crate::kept::{Dark, Kept};

#[derive(Drop)]
pub struct Fused<K> {
    kept: K,
    left: u64,
}

impl<K: Kept> Kept for Fused<K> {
    ghost word = { λ s. K.word s.kept };

    ghost sure = { λ s. K.sure s.kept && not (s.left == 0) };

    fn load(&self, at: usize) -> u64 {
        self.kept.load(at)
    }

    fn store(&mut self, at: usize, w: u64) -> Result<(), Dark> {
        self.put(at, w)
    }
}

impl<K: Kept> Fused<K> {
    // Dark after so many stores.
    pub fn new(kept: K, stores: u64) -> Self
        ensures { (result.kept ≡ kept) × (result.left ≡ stores) }
    {
        Fused { kept, left: stores }
    }

    // Dark after so many stores from here on.
    pub fn set_left(&mut self, stores: u64)
        ensures { (self.new.kept ≡ self.old.kept) × (self.new.left ≡ stores) }
    {
        self.left = stores;
    }

    // How many more stores there are.
    pub fn left(&self) -> u64
        ensures { result ≡ self.now.left }
    {
        self.left
    }

    // One store less; where none is left nothing is stored any more.
    fn put(&mut self, at: usize, w: u64) -> Result<(), Dark>
        requires { at < 262144 }
        ensures { MatchResult result (λ _. (self.old.left ≡ self.new.left + 1) × (K.word self.new.kept ≡ stored at w (K.word self.old.kept))) (λ _. (K.sure self.old.kept ≡ true → (self.old.left ≡ 0) × (self.new.left ≡ 0)) × (K.word self.new.kept ≡ K.word self.old.kept)) }
    {
        if self.left == 0 {
            return Err(Dark);
        }
        self.left -= 1;
        self.kept.store(at, w)
    }
}
