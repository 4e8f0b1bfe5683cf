// How far a file is replaced.
ghost use Rattle.std.specs.Prelude.{◌≡◌};
ghost use Rattle.device.specs.Replaced.{moved, settled, synced, written};

// Which file its name means, and whether all of that one was on the disk when it got the name.
#[derive(Clone, Copy, Debug, PartialEq, Eq)]
pub enum Place {
    // The one that was there.
    Before,
    // After a failing of the power either one.
    Between(bool),
    // The new one.
    Behind(bool),
}

#[derive(Clone, Copy, Debug, PartialEq, Eq)]
pub struct Done {
    // Is all of the file aside on the disk.
    pub whole: bool,
    pub place: Place,
}

impl Done {
    // Nothing yet.
    pub const NOTHING: Done = Done {
        whole: false,
        place: Place::Before,
    };

    pub fn written(self) -> Self
        ensures { result ≡ written self }
    {
        Done {
            whole: false,
            place: self.place,
        }
    }

    pub fn synced(self) -> Self
        ensures { result ≡ synced self }
    {
        Done {
            whole: true,
            place: self.place,
        }
    }

    pub fn moved(self) -> Self
        ensures { result ≡ moved self }
    {
        Done {
            whole: false,
            place: Place::Between(self.whole),
        }
    }

    pub fn settled(self) -> Self
        ensures { result ≡ settled self }
    {
        match self.place {
            Place::Before | Place::Behind(_) => self,
            Place::Between(whole) => Done {
                whole: self.whole,
                place: Place::Behind(whole),
            },
        }
    }
}
