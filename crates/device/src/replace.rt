// A file that is replaced as a whole: what may be found of it, wherever the power fails, is what it was or what it is to be.
ghost use Rattle.std.specs.Prelude.{◌≡◌, OnOk};
ghost use Rattle.device.specs.Replaced.{Either, IsKept, Moves, Settles, Syncs, Writes};
ghost use Rattle.device.specs.declared.content.Content.{Content as ContentT};
ghost use Rattle.device.specs.declared.done.Done.{Done as DoneT};

use crate::content::Content;
use crate::done::Done;
use std::io;

// A file, and the one aside that is to take its place.
pub trait Replacing {
    // What has been done of that.
    ghost done: { Self → DoneT };

    // What was written last.
    ghost wrote: { Self → ContentT };

    // The file aside is written, of which nothing is sure yet.
    fn write(&mut self, content: Content) -> io::Result<()>
        ensures { Writes result content (done self.old) (done self.new) (wrote self.new) };

    // What was written is on the disk.
    fn sync(&mut self) -> io::Result<()>
        ensures { Syncs result (done self.old) (done self.new) (wrote self.old) (wrote self.new) };

    // The file aside takes the place of the file.
    fn shift(&mut self) -> io::Result<()>
        ensures { Moves result (done self.old) (done self.new) (wrote self.old) (wrote self.new) };

    // That it did is on the disk.
    fn settle(&mut self) -> io::Result<()>
        ensures { Settles result (done self.old) (done self.new) (wrote self.old) (wrote self.new) };
}

// Written aside, synced, moved into place, and the directory synced.
pub fn replace<R: Replacing>(file: &mut R, content: Content) -> io::Result<()>
    ensures kept { OnOk result (IsKept (R.done file.new) × (R.wrote file.new ≡ content)) }
    ensures either { Either (R.done file.old) → Either (R.done file.new) }
{
    file.write(content)?;
    file.sync()?;
    file.shift()?;
    file.settle()
}
