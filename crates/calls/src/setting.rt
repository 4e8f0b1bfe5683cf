// Setting a job, up to the pass: what is refused, and the rows that the pass begins with.
ghost use Rattle.std.specs.Prelude.{◌≡◌, ℕ, ◌<◌, ◌≤◌, true, List, [], ◌∷◌, length};
ghost use Rattle.model.specs.Lists.{find};
ghost use Rattle.model.specs.State as s;
ghost use Rattle.model.specs.State.{is_job};
ghost use Rattle.model.specs.Calls.{acts};
ghost use Rattle.model.proofs.Settles.{Fine};
ghost use Rattle.jobs.specs.Layout.{home_words_lem, live_words};
ghost use Rattle.jobs.specs.Rows.{span};
ghost use Rattle.jobs.specs.Tables.{job_at, job_rows_lem, state_of};
ghost use Rattle.jobs.specs.Values.{job_of};
ghost use Rattle.calls.specs.Acted.{Acted};
ghost use Rattle.calls.specs.Setting.{DoneAs, set_call, sets_as};

use crate::answer::{Answer, Refusal};
use crate::call::Wanted;
use crate::versions::next_version;
use crate::wanted::job_of;
use jobs::finding::find_job;
use jobs::job::Job;
use jobs::job_rows::{add_job, put_job};
use jobs::layout::MAX_TASKS;
use jobs::rows::JOBS;
use jobs::sums::sum_of_mosts;
use settling::pass::settle;

// A job of another name than all others.
fn set_new(home: &mut [u64], job: Job) -> Result<(), Refusal>
    requires words { home_words_lem ≤ length home.old }
    requires version { job.version.0 ≡ 1 }
    ensures { DoneAs (sets_as (job_of job) []) home.old home.new result }
{
    add_job(home, job)?;
    Ok(())
}

// The job in row `i`, the first of that name, set anew.
fn reset_job(home: &mut [u64], i: usize, job: Job) -> Result<(), Refusal>
    requires words { home_words_lem ≤ length home.old }
    requires within { i < job_rows_lem home.old }
    ensures { (x : s.Job) → job_at home.old i ≡ x ∷ [] → is_job (job_of job).name x ≡ true → find (is_job (job_of job).name) (span (job_at home.old) 0 i) ≡ [] → DoneAs (sets_as (job_of job) (x ∷ [])) home.old home.new result }
{
    let version = next_version(JOBS.row(home, i).kind(), &job.spec).ok_or(Refusal::Full)?;
    put_job(home, i, Job { version, ..job });
    Ok(())
}

// Sets a job: one more, or one that is there.
fn set_job(home: &mut [u64], wanted: Wanted) -> Result<(), Refusal>
    requires { home_words_lem ≤ length home.old }
    ensures { DoneAs (acts (set_call wanted.entry)) home.old home.new result }
{
    let job = job_of(wanted).ok_or(Refusal::Malformed)?;
    if u64::from(job.most) + u64::from(sum_of_mosts(home, &job.name)) > MAX_TASKS as u64 {
        return Err(Refusal::Full);
    }
    match find_job(home, &job.name) {
        None => set_new(home, job),
        Some(i) => reset_job(home, i, job),
    }
}

// A job is set, and a pass follows.
pub fn set<'a>(home: &mut [u64], live: &mut [u64], time: u64, wanted: Wanted) -> Answer<'a>
    requires words { home_words_lem ≤ length home.old }
    requires flags { live_words ≤ length live.old }
    requires fine { Fine (state_of home.old live.old time) }
    ensures acted { Acted (set_call wanted.entry) home.old live.old time result home.new live.new time }
    ensures long { (length home.new ≡ length home.old) × (length live.new ≡ length live.old) }
{
    let done = set_job(home, wanted);
    if done.is_ok() {
        settle(home, live, time);
    }
    Answer::from(done)
}
