// Reads a line of text, character by character, into the line of bytes that it says.
ghost use Rattle.std.specs.Prelude.{◌≡◌, ℕ, List, [], ◌∷◌, ◌++◌};
ghost use Rattle.model.specs.Wire.{meant};
ghost use Rattle.lines.specs.Ends.{Ends};
ghost use Rattle.lines.specs.Held.{Holds};
ghost use Rattle.lines.specs.Resume.{Reads};
ghost use Rattle.lines.specs.Text.{line_of, time_line_lem};

use crate::kind::Kind;
use crate::line::Line;
use crate::stage::Stage;
use crate::step::{Step, next};

#[derive(Drop)]
pub struct Reader {
    line: Line,
    stage: Stage,
}

// What a text has said: the bytes that were read, or a time.
#[derive(Clone, Copy)]
enum End {
    Bytes,
    Time(u64),
}

// What a text that ends here has said; none where that is nothing.
fn ending(stage: Stage) -> Option<End>
    ensures { Ends stage result }
{
    match stage {
        Stage::High => Some(End::Bytes),
        Stage::Clock(time) => time.map(End::Time),
        _ => None,
    }
}

// The line that tells a time.
fn time_line(time: u64) -> [u8; 17]
    ensures { result ≡ time_line_lem (meant time) }
{
    let [a, b, c, d, e, f, g, h] = time.to_be_bytes();
    let kind = Kind::Time as u8;
    [0, 0, 0, 13, 0, 0, 0, 0, kind, a, b, c, d, e, f, g, h]
}

impl Reader {
    pub fn new() -> Self
        ensures { Reads result.stage result.line.bytes result.line.count line_of }
    {
        Reader {
            line: Line::new(),
            stage: Stage::Start,
        }
    }

    // A new line of text begins.
    pub fn restart(&mut self)
        ensures { Reads self.new.stage self.new.line.bytes self.new.line.count line_of }
    {
        self.line.clear();
        self.stage = Stage::Start;
    }

    // One character more.
    pub fn push(&mut self, c: u8)
        ensures { (f : List ℕ → List ℕ) → Reads self.old.stage self.old.line.bytes self.old.line.count f → Reads self.new.stage self.new.line.bytes self.new.line.count (λ ts. f (c ∷ ts)) }
    {
        let Step { stage, byte } = next(self.stage, c);
        self.stage = stage;
        if let Some(b) = byte {
            self.line.push(b);
        }
    }

    // The text is at its end: the line that it says.
    pub fn finish(&mut self) -> &Line
        ensures { (f : List ℕ → List ℕ) → Reads self.old.stage self.old.line.bytes self.old.line.count f → Holds result.now.bytes result.now.count (f []) }
    {
        match ending(self.stage) {
            Some(End::Bytes) => {}
            Some(End::Time(time)) => self.line.set(&time_line(time)),
            None => self.line.clear(),
        }
        &self.line
    }
}
