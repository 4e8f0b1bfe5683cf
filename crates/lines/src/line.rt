// A line as it comes, of any length: its first bytes are held, and how many it has is counted.
ghost use Rattle.std.specs.Prelude.{◌≡◌, ℕ, List, [], ◌∷◌, ◌++◌, take};
ghost use Rattle.model.specs.Lines.{call_in, kind_in, tag_in};
ghost use Rattle.lines.specs.Held.{Holds, call_room};
ghost use Rattle.lines.specs.Overlong.{AreBytes, LongerAs};

use octets::field::number_at;

// The longest line that may be done: a frame with a report of 2,048 tasks.
pub const ROOM: usize = 18_461;

// Fixed memory and no heap, by a rule of the project.
#[derive(Drop)]
pub struct Line {
    bytes: [u8; ROOM],
    count: u64,
}

impl Line {
    pub fn new() -> Self
        ensures { Holds result.bytes result.count [] }
    {
        Line {
            bytes: [0; ROOM],
            count: 0,
        }
    }

    // An empty line again.
    pub fn clear(&mut self)
        ensures { Holds self.new.bytes self.new.count [] }
    {
        self.count = 0;
    }

    // One byte more.
    pub fn push(&mut self, byte: u8)
        ensures { (line : List ℕ) → Holds self.old.bytes self.old.count line → Holds self.new.bytes self.new.count (line ++ (byte ∷ [])) }
    {
        if self.count < ROOM as u64 {
            self.bytes[self.count as usize] = byte;
        }
        self.count = self.count.saturating_add(1);
    }

    // This line, and no other.
    pub fn set(&mut self, line: &[u8])
        ensures { Holds self.new.bytes self.new.count line.now }
    {
        self.clear();
        for byte in line {
            self.push(*byte);
        }
    }

    // The tag that the answer bears again; 0 where the frame is too short to have one.
    pub fn tag(&self) -> u32
        ensures { (line : List ℕ) → Holds self.now.bytes self.now.count line → result ≡ tag_in line }
    {
        if self.count < 8 {
            return 0;
        }
        number_at(&self.bytes, 4)
    }

    // The call in the frame, as far as it is held; nothing where the frame's length is not that of the rest.
    pub fn call(&self) -> &[u8]
        ensures { (line : List ℕ) → Holds self.now.bytes self.now.count line → result.now ≡ take call_room (call_in line) }
    {
        if self.count < 8 || u64::from(number_at::<u32>(&self.bytes, 0)) + 4 != self.count {
            return &self.bytes[0..0];
        }
        &self.bytes[8..self.count.min(ROOM as u64) as usize]
    }

    // Is the line longer than is held: then no call in it can be done.
    pub fn is_longer(&self) -> bool
        ensures { (line : List ℕ) → Holds self.now.bytes self.now.count line → AreBytes line → LongerAs line result }
    {
        self.count > ROOM as u64
    }

    // The call's first byte, which says its kind, and may be any; 0 where there is none, since 0 is no kind.
    pub fn kind(&self) -> u8
        ensures { (line : List ℕ) → Holds self.now.bytes self.now.count line → result ≡ kind_in (call_in line) }
    {
        match self.call() {
            [kind, ..] => *kind,
            [] => 0,
        }
    }
}
