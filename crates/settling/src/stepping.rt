// One step for one job.
ghost use Rattle.std.specs.Prelude.{◌≡◌, ℕ, ◌+◌, ◌*◌, ◌<◌, ◌≤◌, length, nat_lt};
ghost use Rattle.model.specs.Settle.{for_job, for_jobs};
ghost use Rattle.jobs.specs.Layout.{home_words_lem, live_words};
ghost use Rattle.jobs.specs.Tables.{job_at, job_from_lem, job_row_lem, state_of};
ghost use Rattle.jobs.specs.Values.{job_of};
ghost use Rattle.settling.specs.Scan.{Numbered, Became};

use crate::counting::tally_of;
use crate::ending::to_end;
use crate::growing::grow;
use crate::tally::Tally;
use jobs::job::Job;
use jobs::rows::JOBS;
use jobs::tasks::end_task;

// Are more ready than are to stay.
fn enough_ready(job: &Job, tally: &Tally) -> bool
    ensures { result ≡ nat_lt job.now.least tally.now.ready }
{
    usize::from(job.least) < tally.ready
}

// Are there more of the present version than are wanted.
fn too_many(job: &Job, tally: &Tally) -> bool
    ensures { result ≡ nat_lt job.now.count tally.now.new }
{
    usize::from(job.count) < tally.new
}

// One task of an older version ends; else one too many; a new one comes where one is missing.
fn step_for(home: &mut [u64], live: &mut [u64], j: usize, job: &Job, time: u64)
    requires words { home_words_lem ≤ length home.old }
    requires flags { live_words ≤ length live.old }
    requires within { j < 256 }
    requires job { job_of job.now ≡ job_from_lem (job_row_lem home.old j) }
    requires numbered { Numbered (state_of home.old live.old time) }
    ensures { Became (for_job (job_of job.now) (state_of home.old live.old time)) home.old live.old home.new live.new time }
{
    let tally = tally_of(home, live, job, time);
    let enough = enough_ready(job, &tally);
    if let Some(i) = to_end(tally.old, enough) {
        end_task(home, i);
        let rest = tally_of(home, live, job, time);
        grow(home, live, j, job, &rest, time);
    } else if too_many(job, &tally) {
        if let Some(i) = to_end(tally.newer, enough) {
            end_task(home, i);
        }
    } else {
        grow(home, live, j, job, &tally, time);
    }
}

// The step of the job in row `j`, if there is one.
pub fn step_job(home: &mut [u64], live: &mut [u64], j: usize, time: u64)
    requires words { home_words_lem ≤ length home.old }
    requires flags { live_words ≤ length live.old }
    requires within { j < 256 }
    requires numbered { Numbered (state_of home.old live.old time) }
    ensures { Became (for_jobs (job_at home.old j) (state_of home.old live.old time)) home.old live.old home.new live.new time }
{
    let row = JOBS.row(home, j);
    if row.is_hole() {
        return;
    }
    let job = row.job();
    step_for(home, live, j, &job, time);
}
