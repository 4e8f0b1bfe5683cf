// Opening the file `kept`, or making it.
ghost use Rattle.std.specs.Prelude.{◌≡◌, length, IfErr};
ghost use Rattle.device.specs.Opens.{IsFair};

use crate::bytes::decode;
use crate::content::Content;
use crate::disk::{OnDisk, Paths};
use crate::filed::Filed;
use crate::kept::WORDS;
use crate::replace::replace;
use std::alloc::AllocError;
use std::fs::{File, OpenOptions};
use std::io;
use std::io::{ErrorKind, Read};
use thiserror::Error;

// Eight bytes for each of 262,144 words.
const BYTES: u64 = 2097152;

// Why there is no kept memory.
#[derive(Clone, Copy, Debug, Drop, Error)]
pub enum OpenError {
    // The file is so many bytes long.
    #[error("kept: {0} bytes, not 2097152: this is no kept memory; put back the right file, or move this one away to begin anew")]
    Length(u64),
    #[error("kept: cannot be made: {0}; see that its directory is there, can be written and has 2 MiB left")]
    Make(io::Error),
    #[error("kept: cannot be opened: {0}; see that it is a file that may be read and written")]
    Open(io::Error),
    #[error("kept: cannot be read: {0}; try again, and put back a copy if it stays so")]
    Read(io::Error),
}

// Opens the file, or makes it, as `open_at` does, and reads its words into the mirror.
pub fn open<'a>(
    rt: &HostRuntime,
    paths: Paths<'_>,
    aside: Result<&str, AllocError>,
    mirror: &'a mut [u64; WORDS],
) -> Result<Filed<'a>, OpenError>
    ensures { IfErr result IsFair }
{
    let mut file = open_at(rt, paths, aside)?;
    read_all(&mut file, mirror).map_err(OpenError::Read)?;
    Ok(Filed::of(file, mirror))
}

// Opens the file, or makes it, all 0: aside, if there was memory for that path. One of another length is refused, and left as it is.
pub fn open_at(
    rt: &HostRuntime,
    paths: Paths<'_>,
    aside: Result<&str, AllocError>,
) -> Result<File, OpenError>
    ensures { IfErr result IsFair }
{
    let file = open_or_make(rt, paths, aside)?;
    let long = file.metadata().map_err(OpenError::Open)?.len();
    if long != BYTES {
        return Err(OpenError::Length(long));
    }
    Ok(file)
}

fn open_or_make(
    rt: &HostRuntime,
    paths: Paths<'_>,
    aside: Result<&str, AllocError>,
) -> Result<File, OpenError>
    ensures { IfErr result IsFair }
{
    match open_file(rt, paths.file) {
        Err(e) if e.kind() == ErrorKind::NotFound => {
            make(rt, paths, aside).map_err(OpenError::Make)?;
            open_file(rt, paths.file).map_err(OpenError::Open)
        }
        opened => opened.map_err(OpenError::Open),
    }
}

fn open_file(rt: &HostRuntime, path: &str) -> io::Result<File> {
    let mut how = OpenOptions::new();
    how.read(true).write(true);
    how.open(rt, path)
}

// Made aside, so that there is never a part of it.
fn make(rt: &HostRuntime, paths: Paths<'_>, aside: Result<&str, AllocError>) -> io::Result<()> {
    let mut disk = OnDisk::new(rt, paths, aside?);
    replace(&mut disk, Content::Zeros(BYTES))
}

fn read_all(file: &mut File, mirror: &mut [u64; WORDS]) -> io::Result<()> {
    for part in mirror.chunks_exact_mut(512) {
        read_part(file, part)?;
    }
    Ok(())
}

// Reads the next words, at most 512.
fn read_part(file: &mut File, words: &mut [u64]) -> io::Result<()>
    requires { length words.old ≡ 512 }
{
    let mut bytes = [0u8; 4096];
    file.read_exact(&mut bytes)?;
    decode(&bytes, words);
    Ok(())
}
