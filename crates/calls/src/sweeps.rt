// All tasks in turn: what a report says of them, and what the time does.
ghost use Rattle.std.specs.Prelude.{◌≡◌, ℕ, ◌+◌, ◌<◌, ◌≤◌, not, ◌&&◌, map, length};
ghost use Rattle.model.specs.Lists.{some};
ghost use Rattle.model.specs.State.{is_ready_lem};
ghost use Rattle.model.specs.Calls.{heard_all, unsure};
ghost use Rattle.jobs.specs.Values.{machine_of, phase_of};
ghost use Rattle.settling.specs.Scan.{is_present};
ghost use Rattle.jobs.specs.Layout.{home_words_lem, live_words};
ghost use Rattle.jobs.specs.Tables.{TaskPut, TasksNow, machines_of, task_at, tasks_of};
ghost use Rattle.calls.specs.Meaning.{seens_of};

use crate::call::Reported;
use crate::heard::heard;
use crate::outcome::Heard;
use jobs::layout::READY_BASE;
use jobs::phase::Phase;
use jobs::rows::TASKS;
use jobs::tasks::{mark_task, remove_task};
use settling::presence::heard_of;

// What a report makes of the task in row `i`.
fn hear_task(home: &mut [u64], live: &mut [u64], i: usize, report: Reported)
    requires words { home_words_lem ≤ length home.old }
    requires flags { live_words ≤ length live.old }
    requires within { i < 2048 }
    ensures { TaskPut i (heard_all report.entry.machine.0 report.entry.life.0 (seens_of report.entry.tasks.now) (task_at home.old live.old i)) home.old live.old home.new live.new }
{
    let row = TASKS.row(home, i);
    if row.is_hole() {
        return;
    }
    match heard(row.phase(live[READY_BASE + i]), row.id(), report) {
        Heard::Stays => {}
        Heard::Gone => remove_task(home, i),
        Heard::Marked(ready) => mark_task(live, i, ready),
    }
}

// What a report makes of all tasks.
pub fn hear(home: &mut [u64], live: &mut [u64], report: Reported)
    requires words { home_words_lem ≤ length home.old }
    requires flags { live_words ≤ length live.old }
    ensures { TasksNow (heard_all report.entry.machine.0 report.entry.life.0 (seens_of report.entry.tasks.now) (tasks_of home.old live.old)) home.old live.old home.new live.new }
{
    // By number: a row is changed where it stands, so nothing can lend the rows meanwhile.
    for i in 0..TASKS.in_use(home) {
        hear_task(home, live, i, report);
    }
}

// Is a task in that phase ready on a machine that is no longer present.
fn doubtful(home: &[u64], live: &[u64], phase: Phase, time: u64) -> bool
    requires words { home_words_lem ≤ length home.now }
    requires flags { live_words ≤ length live.now }
    ensures { result ≡ (is_ready_lem (phase_of phase) && not (some (is_present time (machine_of phase)) (machines_of home.now live.now))) }
{
    match phase {
        Phase::Ready(place) => !heard_of(home, live, place.machine, time),
        _ => false,
    }
}

// The task in row `i` is only told if it was ready on a machine that is no longer present.
fn doubt_task(home: &[u64], live: &mut [u64], i: usize, time: u64)
    requires words { home_words_lem ≤ length home.now }
    requires flags { live_words ≤ length live.old }
    requires within { i < 2048 }
    ensures { TaskPut i (map (unsure time (machines_of home.now live.old)) (task_at home.now live.old i)) home.now live.old home.now live.new }
{
    let row = TASKS.row(home, i);
    if row.is_hole() {
        return;
    }
    let phase = row.phase(live[READY_BASE + i]);
    if doubtful(home, live, phase, time) {
        mark_task(live, i, false);
    }
}

// What the time makes of all tasks.
pub fn doubt(home: &[u64], live: &mut [u64], time: u64)
    requires words { home_words_lem ≤ length home.now }
    requires flags { live_words ≤ length live.old }
    ensures { TasksNow (map (unsure time (machines_of home.now live.old)) (tasks_of home.now live.old)) home.now live.old home.now live.new }
{
    // By number: one number finds a row in `home` and its flag in `live`, lent as words by a rule of the project.
    for i in 0..TASKS.in_use(home) {
        doubt_task(home, live, i, time);
    }
}
