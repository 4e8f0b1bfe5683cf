// A file on the disk that is replaced, and how far that is.
ghost use Rattle.std.specs.Prelude.{◌≡◌};
ghost use Rattle.device.specs.Replaced.{Either};

use crate::content::Content;
use crate::done::Done;
use crate::replace::Replacing;
use std::fs::File;
use std::io::{ErrorKind, Write};
use std::{fs, io};

// Where the file is, and its directory.
#[derive(Clone, Copy)]
pub struct Paths<'a> {
    pub file: &'a str,
    pub dir: &'a str,
}

// What a contract knows of the disk is what was done to it: each part says so once it has come to its end, and where it fails, no more than that.
#[derive(Drop)]
pub struct OnDisk<'a> {
    rt: &'a HostRuntime,
    paths: Paths<'a>,
    aside: &'a str,
    // The file aside, while it is open.
    file: Option<File>,
    done: Done,
    wrote: Content,
}

impl<'a> OnDisk<'a> {
    pub fn new(rt: &'a HostRuntime, paths: Paths<'a>, aside: &'a str) -> Self
        ensures { Either result.done }
    {
        OnDisk {
            rt,
            paths,
            aside,
            file: None,
            done: Done::NOTHING,
            wrote: Content::Zeros(0),
        }
    }
}

fn put(file: &mut File, content: Content) -> io::Result<()> {
    match content {
        Content::Zeros(n) => file.set_len(n),
        Content::Bytes(bytes) => file.write_all(&bytes),
    }
}

impl Replacing for OnDisk<'_> {
    ghost done = { λ s. s.done };

    ghost wrote = { λ s. s.wrote };

    fn write(&mut self, content: Content) -> io::Result<()> {
        let mut file = File::create(self.rt, self.aside)?;
        put(&mut file, content)?;
        self.file = Some(file);
        self.done = self.done.written();
        self.wrote = content;
        Ok(())
    }

    fn sync(&mut self) -> io::Result<()> {
        let Some(file) = &self.file else {
            return Err(io::Error::from(ErrorKind::Other));
        };
        file.sync_all()?;
        self.done = self.done.synced();
        Ok(())
    }

    fn shift(&mut self) -> io::Result<()> {
        self.file = None;
        self.done = self.done.moved();
        fs::rename(self.rt, self.aside, self.paths.file)
    }

    fn settle(&mut self) -> io::Result<()> {
        File::open(self.rt, self.paths.dir)?.sync_all()?;
        self.done = self.done.settled();
        Ok(())
    }
}
