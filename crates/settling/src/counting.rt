// The scan for one job.
ghost use Rattle.std.specs.Prelude.{◌≡◌, ℕ, ◌+◌, ◌*◌, ◌<◌, ◌≤◌, not, ◌&&◌, ◌||◌, length, if◌then◌else◌, Some, None};
ghost use Rattle.model.specs.Lists.{some};
ghost use Rattle.model.specs.State.{is_waiting, is_ready_lem, is_ending};
ghost use Rattle.jobs.specs.Layout.{home_words_lem, live_words};
ghost use Rattle.jobs.specs.Tables.{task_at, task_rows_lem, machines_of, state_of};
ghost use Rattle.jobs.specs.Values.{phase_of, machine_of, job_of};
ghost use Rattle.settling.specs.Scan.{is_present, stepped_by, Tallied};

use crate::presence::surely;
use crate::tally::{Picks, Tally};
use jobs::job::Job;
use jobs::layout::READY_BASE;
use jobs::phase::Phase;
use jobs::rows::TASKS;

fn ready_now(p: Phase) -> bool
    ensures { result ≡ is_ready_lem (phase_of p) }
{
    matches!(p, Phase::Ready(_))
}

fn ending_now(p: Phase) -> bool
    ensures { result ≡ is_ending (phase_of p) }
{
    matches!(p, Phase::Ending(_))
}

// Is a task in that phase surely not ready.
fn spare(home: &[u64], live: &[u64], phase: Phase, time: u64) -> bool
    requires words { home_words_lem ≤ length home.now }
    requires flags { live_words ≤ length live.now }
    ensures { result ≡ (not (is_ready_lem (phase_of phase)) && (is_waiting (phase_of phase) || some (is_present time (machine_of phase)) (machines_of home.now live.now))) }
{
    if ready_now(phase) {
        return false;
    }
    surely(home, live, phase, time)
}

// Row `i` is the last of its sort.
fn pick(p: Picks, i: usize, busy: bool, idle: bool) -> Picks
    ensures { result ≡ record { idle = (if idle then Some i else p.idle); busy = (if busy then Some i else p.busy) } }
{
    Picks {
        idle: if idle { Some(i) } else { p.idle },
        busy: if busy { Some(i) } else { p.busy },
    }
}

// The tally with one more row.
fn step(tally: Tally, home: &[u64], live: &[u64], i: usize, job: &Job, time: u64) -> Tally
    requires words { home_words_lem ≤ length home.now }
    requires flags { live_words ≤ length live.now }
    requires within { i < 2048 }
    requires total { tally.total ≤ i }
    requires all { tally.all ≤ i }
    requires new { tally.new ≤ i }
    requires ready { tally.ready ≤ i }
    ensures { result ≡ stepped_by (job_of job.now) (state_of home.now live.now time) i (task_at home.now live.now i) tally }
{
    let row = TASKS.row(home, i);
    if row.is_hole() {
        return tally;
    }
    let mut next = tally;
    next.total += 1;
    let kind = row.kind();
    if !kind.is_named(&job.name) {
        return next;
    }
    next.all += 1;
    let phase = row.phase(live[READY_BASE + i]);
    if ending_now(phase) {
        return next;
    }
    let ready = ready_now(phase);
    let idle = spare(home, live, phase, time);
    next.ready += usize::from(ready);
    if kind.version() == job.version {
        next.new += 1;
        next.newer = pick(tally.newer, i, ready, idle);
    } else {
        next.old = pick(tally.old, i, ready, idle);
    }
    next
}

// What is there of a job.
pub fn tally_of(home: &[u64], live: &[u64], job: &Job, time: u64) -> Tally
    requires words { home_words_lem ≤ length home.now }
    requires flags { live_words ≤ length live.now }
    ensures { Tallied (job_of job.now) (state_of home.now live.now time) (task_at home.now live.now) (task_rows_lem home.now) result }
{
    // No `fold`: tried, and what it asks before each turn, the bounds on the counts, did not close. It would be as long.
    let mut tally = Tally::default();
    for i in 0..TASKS.in_use(home) {
        tally = step(tally, home, live, i, job, time);
    }
    tally
}
