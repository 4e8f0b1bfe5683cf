// A job's name.
ghost use Rattle.std.specs.Prelude.{◌≤◌};

// Up to 64 bytes, eight to a word, high byte first. (Fixed memory, and no heap: a rule of the project.)
#[derive(Clone, Copy)]
pub struct Name {
    pub len: u8,
    pub words: [u64; 8],
    ghost short: { len ≤ 64 },
}
