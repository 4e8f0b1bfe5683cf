// Kept words in memory that is lent.
ghost use Rattle.std.specs.Prelude.{◌≡◌, true, length, slice_index};

use crate::kept::{Dark, Kept, WORDS};

#[derive(Drop)]
pub struct Lent<'a> {
    words: &'a mut [u64],
    ghost all: { length words.now ≡ 262144 },
}

impl Kept for Lent<'_> {
    ghost word = { λ s a. slice_index s.words.now a };

    ghost sure = { λ _. true };

    fn load(&self, at: usize) -> u64 {
        self.words[at]
    }

    fn store(&mut self, at: usize, w: u64) -> Result<(), Dark> {
        self.words[at] = w;
        Ok(())
    }
}

impl<'a> Lent<'a> {
    pub fn new(words: &'a mut [u64; WORDS]) -> Self
        ensures { result.words.now ≡ words.old }
    {
        Lent { words }
    }
}
