// What the herd says to a call. What an answer lists stands in the rows, and is written from there.
ghost use Rattle.std.specs.Prelude.{◌≡◌};
ghost use Rattle.calls.specs.Answers.{answer_to_done, number_of};
ghost use Rattle.calls.specs.declared.answer.Refusal.TheVariants.{Full};

use jobs::full;
use jobs::ids::{Life, MachineId, ReportNumber};

// Why a call is turned away.
#[derive(Clone, Copy, Debug, PartialEq, Eq)]
pub enum Refusal {
    // Out of range, or no call at all.
    Malformed = 1,
    // No such job or machine.
    Unknown = 2,
    // The machine is there.
    Present = 3,
    // A report that is no news.
    Stale = 5,
    // No more room: for jobs, machines, versions or tasks.
    Full = 8,
    // No time was told.
    NoTime = 10,
    // That kind of call is not built yet.
    NotBuilt = 12,
}

impl Refusal {
    // The number that the answer bears.
    pub fn number(self) -> u8
        ensures { result ≡ number_of self }
    {
        self as u8
    }
}

impl From<full::Full> for Refusal {
    ghost from_gives = { λ _ e. e ≡ Full };

    fn from(_full: full::Full) -> Refusal {
        Refusal::Full
    }
}

// (An agent's `Head` has the same fields, but is that agent's own state: one type would tie the two ends of the line.)
#[derive(Clone, Copy)]
pub struct RunOn {
    pub machine: MachineId,
    pub life: Life,
    pub number: ReportNumber,
}

#[derive(Clone, Copy)]
pub enum Answer<'a> {
    TurnedAway(Refusal),
    Yes,
    // To a report: all that is to run on its machine.
    Run(RunOn),
    // To showing: the tasks of the job of that name.
    Lines(&'a [u8]),
}

// Yes where it was done, and else why not.
impl<'a, T: Copy> From<Result<T, Refusal>> for Answer<'a> {
    ghost from_gives = { λ done a. a ≡ answer_to_done done };

    fn from(done: Result<T, Refusal>) -> Answer<'a> {
        match done {
            Ok(_) => Answer::Yes,
            Err(why) => Answer::TurnedAway(why),
        }
    }
}
