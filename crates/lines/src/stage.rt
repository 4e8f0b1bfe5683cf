// Where the reading of a line of text stands.
ghost use Rattle.std.specs.Prelude.{◌<◌};

// Half a byte.
#[derive(Clone, Copy)]
pub struct Nibble {
    pub value: u8,
    ghost small: { value < 16 },
}

// The words `in ` and `time ` letter by letter, then digits; or nothing that can become a line.
#[derive(Clone, Copy)]
pub enum Stage {
    Start,
    I,
    In,
    T,
    Ti,
    Tim,
    Time,
    High,
    Low(Nibble),
    Clock(Option<u64>),
    Bad,
}
