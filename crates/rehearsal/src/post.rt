// The lines: letters in the order in which they were sent, and what becomes of them.
use crate::letter::Letter;
use script::command::Lines;
use script::splitmix::Splitmix;
use std::alloc::{AllocError, Global};

#[derive(Drop)]
pub struct Post {
    letters: Vec<Letter>,
    lines: Lines,
    generator: Splitmix,
}

// What comes of one draw where lines are bad.
#[derive(Drop)]
pub enum Drawn {
    Lost(Letter),
    // It is delivered, and stays where it was or not.
    Delivered(Letter),
    Nothing,
}

impl Post {
    pub fn new(heap: Global) -> Self {
        Post {
            letters: Vec::new(heap),
            lines: Lines::Good,
            generator: Splitmix::new(0),
        }
    }

    pub fn lines(&self) -> Lines {
        self.lines
    }

    pub fn set_lines(&mut self, lines: Lines) {
        self.lines = lines;
    }

    // The generator begins anew, and lines are bad.
    pub fn seed(&mut self, seed: u64) {
        self.generator = Splitmix::new(seed);
        self.lines = Lines::Bad;
    }

    pub fn letters(&self) -> &[Letter] {
        self.letters.as_slice()
    }

    pub fn put(&mut self, letter: Letter) -> Result<(), AllocError> {
        self.letters.push(letter)?;
        Ok(())
    }

    // Where letter `k` stands, from 1.
    pub fn place(&self, k: u64) -> Option<usize> {
        let place = usize::try_from(k.checked_sub(1)?).ok()?;
        if place < self.letters.len() {
            Some(place)
        } else {
            None
        }
    }

    // Takes the letter at that place off the lines, if there is one.
    pub fn take(&mut self, place: usize) -> Option<Letter> {
        if place < self.letters.len() {
            return Some(self.letters.remove(place));
        }
        None
    }

    // The letter at that place once more, if there is one.
    pub fn copy(&self, heap: Global, place: usize) -> Result<Option<Letter>, AllocError> {
        match self.letters.get(place) {
            Some(letter) => Ok(Some(letter.doubled(heap)?)),
            None => Ok(None),
        }
    }

    // One draw: which letter, and then what becomes of it.
    pub fn draw(&mut self, heap: Global) -> Result<Drawn, AllocError> {
        if self.letters.is_empty() {
            return Ok(Drawn::Nothing);
        }
        let place = (self.generator.draw() % self.letters.len() as u64) as usize;
        let drawn = match self.generator.draw() % 8 {
            0 => self.take(place).map(Drawn::Lost),
            1 => self.copy(heap, place)?.map(Drawn::Delivered),
            2 | 3 => None,
            _ => self.take(place).map(Drawn::Delivered),
        };
        Ok(drawn.unwrap_or(Drawn::Nothing))
    }
}
