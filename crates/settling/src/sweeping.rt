// All rows in turn: tasks of jobs that are no longer wanted end, then each job makes its step.
ghost use Rattle.std.specs.Prelude.{◌≡◌, ℕ, ◌+◌, ◌*◌, ◌<◌, ◌≤◌, List, length};
ghost use Rattle.model.specs.Settle.{orphans_end, for_jobs};
ghost use Rattle.jobs.specs.Layout.{home_words_lem, live_words};
ghost use Rattle.jobs.specs.Tables.{task_at, tasks_of, jobs_of, state_of, TaskPut, TasksNow};
ghost use Rattle.settling.specs.Scan.{Numbered, Became};

use crate::stepping::step_job;
use jobs::finding::find_job;
use jobs::rows::{JOBS, TASKS};
use jobs::tasks::end_task;

// Ends the task in row `i` if its job is no longer wanted.
fn end_orphan(home: &mut [u64], i: usize)
    requires words { home_words_lem ≤ length home.old }
    requires within { i < 2048 }
    ensures { (live : List ℕ) → TaskPut i (orphans_end (jobs_of home.old) (task_at home.old live i)) home.old live home.new live }
{
    let row = TASKS.row(home, i);
    if row.is_hole() {
        return;
    }
    let name = row.kind().name();
    if find_job(home, &name).is_none() {
        end_task(home, i);
    }
}

// Ends all tasks of jobs that are no longer wanted.
pub fn end_orphans(home: &mut [u64])
    requires { home_words_lem ≤ length home.old }
    ensures { (live : List ℕ) → TasksNow (orphans_end (jobs_of home.old) (tasks_of home.old live)) home.old live home.new live }
{
    // By number, here and below: a row is changed where it stands, so nothing can lend the rows meanwhile.
    for i in 0..TASKS.in_use(home) {
        end_orphan(home, i);
    }
}

// One step for each job, in the order in which they were first set.
pub fn step_jobs(home: &mut [u64], live: &mut [u64], time: u64)
    requires words { home_words_lem ≤ length home.old }
    requires flags { live_words ≤ length live.old }
    requires numbered { Numbered (state_of home.old live.old time) }
    ensures { Became (for_jobs (jobs_of home.old) (state_of home.old live.old time)) home.old live.old home.new live.new time }
{
    for j in 0..JOBS.in_use(home) {
        step_job(home, live, j, time);
    }
}
