// Telling the time.
ghost use Rattle.std.specs.Prelude.{◌≡◌, ℕ, ◌≤◌, length, MatchOption};
ghost use Rattle.model.specs.Calls.{Tick, acts, no, yes'};
ghost use Rattle.model.specs.Calls.{later, timed};
ghost use Rattle.model.specs.Settle.{settle as settled};
ghost use Rattle.model.proofs.Settles.{Fine};
ghost use Rattle.jobs.specs.Layout.{home_words_lem, live_words};
ghost use Rattle.jobs.specs.Tables.{state_of};
ghost use Rattle.calls.specs.Times.{Told};

use crate::answer::Refusal;
use crate::sweeps::doubt;
use jobs::ids::LAST;
use settling::pass::settle;

// The later of two times.
fn later_of(ms: u64, time: u64) -> u64
    ensures { result ≡ later ms time }
{
    ms.max(time)
}

// The time goes on, and a pass follows.
fn go_on(home: &mut [u64], live: &mut [u64], time: u64)
    requires words { home_words_lem ≤ length home.old }
    requires flags { live_words ≤ length live.old }
    requires fine { Fine (state_of home.old live.old time) }
    ensures { state_of home.new live.new time ≡ settled (timed time (state_of home.old live.old time)) }
{
    doubt(home, live, time);
    settle(home, live, time);
}

// The time that it is then.
pub fn tell(home: &mut [u64], live: &mut [u64], time: u64, ms: u64) -> Result<u64, Refusal>
    requires words { home_words_lem ≤ length home.old }
    requires flags { live_words ≤ length live.old }
    requires fine { Fine (state_of home.old live.old time) }
    ensures told { Told ms home.old live.old time home.new live.new result }
    ensures long { (length home.new ≡ length home.old) × (length live.new ≡ length live.old) }
{
    if ms == 0 || ms > LAST {
        return Err(Refusal::Malformed);
    }
    let then = later_of(ms, time);
    go_on(home, live, then);
    Ok(then)
}
