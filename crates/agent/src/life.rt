// The file `life`, replaced as a whole: the next life is on the disk before anything bears it.
ghost use Rattle.std.specs.Prelude.{◌≡◌, IfOk, OnOk};
ghost use Rattle.device.specs.Replaced.{Either, IsKept};
ghost use Rattle.device.specs.declared.content.Content.TheVariants.{Bytes};
ghost use Rattle.agents.specs.LifeFile.{life_bytes_lem};

use agents::life::{Unfit, first_life, life_bytes, next_life};
use device::content::Content;
use device::disk::{OnDisk, Paths};
use device::replace::{Replacing, replace};
use jobs::ids::{LAST, Life};
use std::alloc::AllocError;
use std::fs::File;
use std::io;
use std::io::{ErrorKind, Read, Write};
use thiserror::Error;

// Why the agent does not go on.
#[derive(Debug, Drop, Error)]
pub enum Trouble {
    #[error("say `agent MACHINE` or `agent MACHINE DIR`, with the machine's number, 0 to 65535, and the directory of the file `life`")]
    Usage,
    #[error("no memory to begin with")]
    Memory,
    #[error("the arguments cannot be read: {0}")]
    Arguments(io::Error),
    #[error("`life` cannot be read: {0}; see that it is a file that may be read")]
    Open(io::Error),
    #[error("the next life cannot be kept: {0}; see that the directory of `life` is there, may be written, and has room")]
    Keep(io::Error),
    #[error("`life` is damaged, so it is not known which life comes next; put the right file back, or have the herd forget this machine, remove `life`, and add the machine under another number")]
    Damaged,
    #[error("`life` says that the last life, {LAST}, was used; give this machine another number and a directory of its own")]
    Last,
    #[error("lines cannot be read or printed any more: {0}")]
    Lines(io::Error),
}

impl From<AllocError> for Trouble {
    fn from(_e: AllocError) -> Trouble {
        Trouble::Memory
    }
}

impl From<Unfit> for Trouble {
    fn from(e: Unfit) -> Trouble {
        match e {
            Unfit::Damaged => Trouble::Damaged,
            Unfit::Last => Trouble::Last,
        }
    }
}

// What the file says; of another length than 16 bytes, nothing.
fn content(file: &mut File) -> io::Result<Option<[u8; 16]>> {
    let mut bytes = [0u8; 16];
    if file.metadata()?.len() != 16 {
        return Ok(None);
    }
    file.read_exact(&mut bytes)?;
    Ok(Some(bytes))
}

fn next_after(file: &mut File) -> Result<Life, Trouble> {
    let bytes = content(file)
        .map_err(Trouble::Open)?
        .ok_or(Trouble::Damaged)?;
    Ok(next_life(&bytes)?)
}

// The life to come up with.
fn next(rt: &HostRuntime, path: &str) -> Result<Life, Trouble> {
    match File::open(rt, path) {
        Ok(mut file) => next_after(&mut file),
        Err(e) if e.kind() == ErrorKind::NotFound => Ok(first_life()),
        Err(e) => Err(Trouble::Open(e)),
    }
}

// The life, once it is on the disk, and nothing else can be found there any more.
fn keep<R: Replacing>(file: &mut R, life: Life) -> io::Result<Life>
    ensures kept { OnOk result (IsKept (R.done file.new) × (R.wrote file.new ≡ Bytes (life_bytes_lem life.0))) }
    ensures either { Either (R.done file.old) → Either (R.done file.new) }
    ensures life { IfOk result (λ l. l ≡ life) }
{
    replace(file, Content::Bytes(life_bytes(life)))?;
    Ok(life)
}

// A life that was never used, once it is on the disk.
pub fn rise(rt: &HostRuntime, dir: &str) -> Result<Life, Trouble> {
    let path = format!(in rt.alloc(); "{dir}/life")?;
    let life = next(rt, path.as_str())?;
    let aside = format!(in rt.alloc(); "{dir}/life.new").map_err(|e| Trouble::Keep(e.into()))?;
    let paths = Paths {
        file: path.as_str(),
        dir,
    };
    let mut file = OnDisk::new(rt, paths, aside.as_str());
    keep(&mut file, life).map_err(Trouble::Keep)
}
