// A new task of a job, where one is missing.
ghost use Rattle.std.specs.Prelude.{◌≡◌, ℕ, ◌+◌, ◌*◌, ◌<◌, ◌≤◌, true, length};
ghost use Rattle.model.specs.Settle.{may_grow_lem, grows as grownBy};
ghost use Rattle.jobs.specs.Layout.{home_words_lem, live_words};
ghost use Rattle.jobs.specs.Rows.{at};
ghost use Rattle.jobs.specs.Tables.{task_at, task_rows_lem, tasks_of, job_from_lem, job_row_lem, state_of, TasksOnly, TasksNow};
ghost use Rattle.jobs.specs.Values.{job_of};
ghost use Rattle.settling.specs.Scan.{Tallied};

use crate::tally::Tally;
use jobs::ids::LAST;
use jobs::job::Job;
use jobs::layout::{LAST_ID, MAX_TASKS};
use jobs::moves::{add_task, compact};
use jobs::rows::TASKS;

// Is one of the present version missing, and is there room for it.
fn may_grow(home: &[u64], live: &[u64], job: &Job, tally: &Tally, time: u64) -> bool
    requires words { home_words_lem ≤ length home.now }
    requires tally { Tallied (job_of job.now) (state_of home.now live.now time) (task_at home.now live.now) (task_rows_lem home.now) tally.now }
    ensures { result ≡ may_grow_lem (job_of job.now) (state_of home.now live.now time) }
{
    tally.new < usize::from(job.count)
        && tally.all < usize::from(job.most)
        && tally.total < MAX_TASKS
        && home[LAST_ID] < LAST - 1
}

// Closes the holes where no row is free.
fn make_room(home: &mut [u64], live: &mut [u64])
    requires words { home_words_lem ≤ length home.old }
    requires flags { live_words ≤ length live.old }
    ensures same { TasksNow (tasks_of home.old live.old) home.old live.old home.new live.new }
    ensures free { length (tasks_of home.old live.old) < 2048 → task_rows_lem home.new < 2048 }
{
    if TASKS.in_use(home) == MAX_TASKS {
        compact(home, live);
    }
}

// One new task of the job in row `j` comes, if it may.
pub fn grow(home: &mut [u64], live: &mut [u64], j: usize, job: &Job, tally: &Tally, time: u64)
    requires words { home_words_lem ≤ length home.old }
    requires flags { live_words ≤ length live.old }
    requires within { j < 256 }
    requires job { job_of job.now ≡ job_from_lem (job_row_lem home.old j) }
    requires tally { Tallied (job_of job.now) (state_of home.old live.old time) (task_at home.old live.old) (task_rows_lem home.old) tally.now }
    ensures state { state_of home.new live.new time ≡ grownBy (job_of job.now) (state_of home.old live.old time) }
    ensures frame { TasksOnly home.old live.old home.new live.new }
{
    if !may_grow(home, live, job, tally, time) {
        return;
    }
    make_room(home, live);
    add_task(home, live, j);
}
