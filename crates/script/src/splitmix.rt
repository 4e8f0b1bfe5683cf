// The generator splitmix64.
ghost use Rattle.std.specs.Prelude.{◌≡◌};
ghost use Rattle.script.specs.Splitmix.{advanced, mixed};

const STEP: u64 = 0x9e37_79b9_7f4a_7c15;

const FIRST: u64 = 0xbf58_476d_1ce4_e5b9;

const SECOND: u64 = 0x94d0_49bb_1331_11eb;

#[derive(Clone, Copy, Debug, PartialEq, Eq)]
pub struct Splitmix {
    state: u64,
}

// The number that is drawn at a state.
fn mix(state: u64) -> u64
    ensures { result ≡ mixed state }
{
    let z = (state ^ (state >> 30)).wrapping_mul(FIRST);
    let z = (z ^ (z >> 27)).wrapping_mul(SECOND);
    z ^ (z >> 31)
}

impl Splitmix {
    // From that seed on.
    pub fn new(seed: u64) -> Self
        ensures { result.state ≡ seed }
    {
        Splitmix { state: seed }
    }

    // The next number.
    pub fn draw(&mut self) -> u64
        ensures state { self.new.state ≡ advanced self.old.state }
        ensures drawn { result ≡ mixed (advanced self.old.state) }
    {
        self.state = self.state.wrapping_add(STEP);
        mix(self.state)
    }
}
