// The file `kept` as kept memory: each store goes to the file at once, and all words stand in memory that is lent.
ghost use Rattle.std.specs.Prelude.{◌≡◌, ◌<◌, false, slice_index};

use crate::bytes::encode;
use crate::kept::{Dark, Kept, WORDS};
use std::fs::File;
use std::io;
use std::io::{Seek, SeekFrom, Write};

// What the words are is what the mirror holds: the file is written first, so the mirror is never ahead of it.
// Its length is tested and not stated, since a struct that states something and holds a reference cannot stand in the `Result` of opening.
#[derive(Drop)]
pub struct Filed<'a> {
    file: File,
    mirror: &'a mut [u64],
}

impl Kept for Filed<'_> {
    ghost word = { λ s a. slice_index s.mirror.now a };

    ghost sure = { λ _. false };

    fn load(&self, at: usize) -> u64 {
        self.mirror.get(at).copied().unwrap_or(0)
    }

    fn store(&mut self, at: usize, w: u64) -> Result<(), Dark> {
        if at >= self.mirror.len() {
            return Err(Dark);
        }
        write_word(&mut self.file, at, w).map_err(|_| Dark)?;
        self.mirror[at] = w;
        Ok(())
    }
}

impl<'a> Filed<'a> {
    // A file, with its words read into the mirror.
    pub(crate) fn of(file: File, mirror: &'a mut [u64; WORDS]) -> Self
        ensures { result.mirror.now ≡ mirror.old }
    {
        Filed { file, mirror }
    }
}

// Writes one word where it stands.
fn write_word(file: &mut File, at: usize, w: u64) -> io::Result<()>
    requires { at < 262144 }
{
    let _ = file.seek(SeekFrom::Start(8 * at as u64))?;
    file.write_all(&encode(w))
}
