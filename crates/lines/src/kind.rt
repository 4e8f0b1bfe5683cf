// The kinds of calls and of answers, by their first byte.
ghost use Rattle.lines.specs.Kinds.{KindAs};

#[derive(Clone, Copy, Debug, PartialEq, Eq)]
pub enum Kind {
    Set = 1,
    End = 2,
    Add = 3,
    Close = 4,
    Reopen = 5,
    Forget = 6,
    Report = 7,
    Time = 8,
    Show = 9,
}

#[derive(Clone, Copy, Debug, PartialEq, Eq)]
pub enum AnswerKind {
    Refused = 0,
    Done = 1,
    Runs = 2,
    Shown = 3,
}

impl Kind {
    // The kind that this byte says, if it is one. (An `Option`: the error of a `TryFrom` would say no more.)
    pub fn of(byte: u8) -> Option<Self>
        ensures { KindAs byte result }
    {
        match byte {
            1 => Some(Kind::Set),
            2 => Some(Kind::End),
            3 => Some(Kind::Add),
            4 => Some(Kind::Close),
            5 => Some(Kind::Reopen),
            6 => Some(Kind::Forget),
            7 => Some(Kind::Report),
            8 => Some(Kind::Time),
            9 => Some(Kind::Show),
            _ => None,
        }
    }
}
