// Calls on a mind: each that is built, and any by its kind.
// The functions over two slices stay beside the methods: a struct that lends both needs clauses on its borrows in each function, so it is no plainer.
ghost use Rattle.std.specs.Prelude.{◌≡◌, ℕ, List};
ghost use Rattle.model.specs.State.{blank};
ghost use Rattle.model.specs.Calls as m;
ghost use Rattle.model.specs.Calls.{Tick};
ghost use Rattle.jobs.specs.Tables.{state_of};
ghost use Rattle.calls.specs.Meaning.{call_of};
ghost use Rattle.calls.specs.Minds.{MindActed, MindHandled};
ghost use Rattle.calls.specs.declared.call.Call.TheVariants.{Add, Report, Set};

use crate::answer::{Answer, Refusal};
use crate::call::{Added, Call, Reported, Wanted};
use crate::mind::Mind;
use crate::{add, clock, report, setting};
use jobs::layout::{HOME_WORDS, LIVE_WORDS};

impl Mind {
    // There is nothing yet, and no time.
    pub fn new() -> Self
        ensures { state_of result.home result.live result.time ≡ blank }
    {
        Mind {
            home: [0; HOME_WORDS],
            live: [0; LIVE_WORDS],
            time: 0,
        }
    }

    // A report.
    pub fn report<'a>(&mut self, report: Reported) -> Answer<'a>
        ensures { MindActed (call_of (Report report.entry)) self.old result self.new }
    {
        report::report(&mut self.home, &mut self.live, self.time, report)
    }

    // A job is set.
    pub fn set<'a>(&mut self, wanted: Wanted) -> Answer<'a>
        ensures { MindActed (call_of (Set wanted.entry)) self.old result self.new }
    {
        setting::set(&mut self.home, &mut self.live, self.time, wanted)
    }

    // A machine is added.
    pub fn add<'a>(&mut self, added: Added) -> Answer<'a>
        ensures { MindActed (call_of (Add added.entry)) self.old result self.new }
    {
        add::add(&mut self.home, &mut self.live, self.time, added)
    }

    // The time.
    pub fn tell<'a>(&mut self, ms: u64) -> Answer<'a>
        ensures { MindActed (Tick ms) self.old result self.new }
    {
        let told = clock::tell(&mut self.home, &mut self.live, self.time, ms);
        if let Ok(time) = told {
            self.time = time;
        }
        Answer::from(told)
    }

    // Showing a job's tasks changes nothing.
    pub fn show<'a>(&self, name: &'a [u8]) -> Answer<'a>
        ensures { MindActed (m.Show name.now) self.now result self.now }
    {
        Answer::Lines(name)
    }

    // Any call, by its kind.
    pub fn act<'a>(&mut self, call: Call<'a>) -> Answer<'a>
        ensures { MindHandled (call_of call.entry) self.old result self.new }
    {
        match call {
            Call::Set(wanted) => self.set(wanted),
            Call::Add(added) => self.add(added),
            Call::Report(report) => self.report(report),
            Call::Time(ms) => self.tell(ms),
            Call::Show(name) => self.show(name),
            Call::End(_) | Call::Close(_) | Call::Reopen(_) | Call::Forget(_) => {
                Answer::TurnedAway(Refusal::NotBuilt)
            }
        }
    }
}
