// All that the herd has in memory: its rows, what of them the dark takes, and the time.
ghost use Rattle.std.specs.Prelude.{◌≡◌, true};
ghost use Rattle.calls.specs.Sound.{sound_words};

use jobs::layout::{HOME_WORDS, LIVE_WORDS};

// Names, numbers and their order are as they come to be: that is what every call needs, and keeps.
#[derive(Drop)]
pub struct Mind {
    pub home: [u64; HOME_WORDS],
    pub live: [u64; LIVE_WORDS],
    pub time: u64,
    ghost sound: { sound_words home ≡ true },
}
