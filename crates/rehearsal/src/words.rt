// Kept words of its own.
ghost use Rattle.std.specs.Prelude.{◌≡◌, ◌<◌, true, slice_index, vec_len};

use device::kept::{Dark, Kept, WORDS};
use std::alloc::{AllocError, Global};

// On the heap: too many for a stack on which they are moved.
#[derive(Drop)]
pub struct Words {
    words: Vec<u64>,
    ghost all: { vec_len words ≡ 262144 },
}

impl Words {
    // All 0.
    pub fn new(heap: Global) -> Result<Self, AllocError> {
        Ok(Words {
            words: vec![in heap; 0; WORDS]?,
        })
    }
}

impl Kept for Words {
    ghost word = { λ s. slice_index s.words.items };

    ghost sure = { λ _. true };

    fn load(&self, at: usize) -> u64 {
        self.words[at]
    }

    fn store(&mut self, at: usize, w: u64) -> Result<(), Dark> {
        self.words[at] = w;
        Ok(())
    }
}
