// Which machines are present.
ghost use Rattle.std.specs.Prelude.{◌≡◌, ℕ, ◌+◌, ◌*◌, ◌<◌, ◌≤◌, not, ◌&&◌, ◌||◌, length, ◌==◌, nat_le};
ghost use Rattle.model.specs.Lists.{some};
ghost use Rattle.model.specs.State.{is_waiting};
ghost use Rattle.jobs.specs.Layout.{home_words_lem, live_words};
ghost use Rattle.jobs.specs.Tables.{machine_at, machines_of};
ghost use Rattle.jobs.specs.Values.{phase_of, machine_of};
ghost use Rattle.settling.specs.Scan.{is_present};

use jobs::ids::MachineId;
use jobs::phase::Phase;
use jobs::rows::MACHINES;

// Was a report heard in the last 30,000 ms.
pub fn heard_lately(heard: u64, time: u64) -> bool
    ensures { result ≡ (not (heard == 0) && nat_le time (heard + 30000)) }
{
    heard != 0 && time.saturating_sub(heard) <= 30000
}

// Is the machine in row `i` that one, and present.
fn present_in(home: &[u64], live: &[u64], i: usize, num: MachineId, time: u64) -> bool
    requires words { home_words_lem ≤ length home.now }
    requires flags { live_words ≤ length live.now }
    requires within { i < 256 }
    ensures { result ≡ some (is_present time num.0) (machine_at home.now live.now i) }
{
    MACHINES.row(home, i).is_numbered(num) && heard_lately(live[i], time)
}

// Is that machine present.
pub fn heard_of(home: &[u64], live: &[u64], num: MachineId, time: u64) -> bool
    requires words { home_words_lem ≤ length home.now }
    requires flags { live_words ≤ length live.now }
    ensures { result ≡ some (is_present time num.0) (machines_of home.now live.now) }
{
    (0..MACHINES.in_use(home)).any(|i| present_in(home, live, i, num, time))
}

// Is it known whether a task in that phase is ready.
pub fn surely(home: &[u64], live: &[u64], phase: Phase, time: u64) -> bool
    requires words { home_words_lem ≤ length home.now }
    requires flags { live_words ≤ length live.now }
    ensures { result ≡ (is_waiting (phase_of phase) || some (is_present time (machine_of phase)) (machines_of home.now live.now)) }
{
    match phase {
        Phase::Waiting => true,
        Phase::Told(place) | Phase::Ready(place) | Phase::Ending(place) => heard_of(
            home,
            live,
            place.machine,
            time,
        ),
    }
}
