// The memory that a battery keeps: 262,144 words of 64 bits, loaded and stored one by one.
ghost use Rattle.std.specs.Prelude.{◌≡◌, ℕ, ◌<◌, Bool, true, is_ok, MatchResult};
ghost use Rattle.model.specs.Memory.{stored};

// How many words there are.
pub const WORDS: usize = 262144;

// The power failed.
#[derive(Clone, Copy, Debug, Drop)]
pub struct Dark;

pub trait Kept {
    // What the words are, by their number.
    ghost word: { Self → ℕ → ℕ };

    // Whether the next store is sure to be done.
    ghost sure: { Self → Bool };

    fn load(&self, at: usize) -> u64
        requires { at < 262144 }
        ensures { result ≡ word self.now at };

    // The word is stored as a whole, or the power failed before, and all words are as they were.
    fn store(&mut self, at: usize, w: u64) -> Result<(), Dark>
        requires { at < 262144 }
        ensures stored { MatchResult result (λ _. word self.new ≡ stored at w (word self.old)) (λ _. word self.new ≡ word self.old) }
        ensures surely { sure self.old ≡ true → is_ok result ≡ true };
}
