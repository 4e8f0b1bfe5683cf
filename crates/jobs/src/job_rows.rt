// Jobs in their rows: change, go, come, and are counted.
ghost use Rattle.std.specs.Prelude.{◌≡◌, ℕ, ◌+◌, ◌*◌, ◌<◌, ◌≤◌, cond, List, [], ◌∷◌, ◌++◌, length, is_ok, nat_lt, OnErr, OnOk};
ghost use Rattle.jobs.specs.Layout.{home_words_lem};
ghost use Rattle.jobs.specs.Rows.{at};
ghost use Rattle.jobs.specs.Tables.{job_rows_lem, jobs_of, jobs_with, JobsNow};
ghost use Rattle.jobs.specs.Values.{job_of};

use crate::encoding::encode_job;
use crate::full::Full;
use crate::job::Job;
use crate::layout::*;
use crate::rows::JOBS;

// The job in row `i` is that one now.
pub fn put_job(home: &mut [u64], i: usize, job: Job)
    requires words { home_words_lem ≤ length home.old }
    requires within { i < job_rows_lem home.old }
    ensures { JobsNow (jobs_with home.old i (job_of job ∷ [])) home.old home.new }
{
    JOBS.put(home, i, &encode_job(job));
}

// The job in row `i` is no longer wanted.
pub fn remove_job(home: &mut [u64], i: usize)
    requires words { home_words_lem ≤ length home.old }
    requires within { i < job_rows_lem home.old }
    ensures { JobsNow (jobs_with home.old i []) home.old home.new }
{
    JOBS.remove(home, i);
}

// How many jobs there are.
pub fn count_jobs(home: &[u64]) -> usize
    requires { home_words_lem ≤ length home.now }
    ensures { result ≡ length (jobs_of home.now) }
{
    JOBS.count(home)
}

// Closes the holes between jobs.
fn close_jobs(home: &mut [u64])
    requires { home_words_lem ≤ length home.old }
    ensures now { JobsNow (jobs_of home.old) home.old home.new }
    ensures rows { job_rows_lem home.new ≡ length (jobs_of home.old) }
{
    let mut none = [0; MAX_JOBS];
    JOBS.close(home, &mut none);
}

// Closes the holes where no row is free. (Machines and tasks have the same lines, here and in adding one; what they say of their table differs.)
fn make_job_room(home: &mut [u64])
    requires { home_words_lem ≤ length home.old }
    ensures now { JobsNow (jobs_of home.old) home.old home.new }
    ensures free { length (jobs_of home.old) < 256 → job_rows_lem home.new < 256 }
{
    if JOBS.in_use(home) == MAX_JOBS {
        close_jobs(home);
    }
}

// Writes a job behind the rows in use.
fn push_job(home: &mut [u64], job: Job)
    requires words { home_words_lem ≤ length home.old }
    requires free { job_rows_lem home.old < 256 }
    ensures { JobsNow (jobs_of home.old ++ job_of job ∷ []) home.old home.new }
{
    let _ = JOBS.push(home, &encode_job(job));
}

// One more job, behind the others; refused where there are 256.
pub fn add_job(home: &mut [u64], job: Job) -> Result<(), Full>
    requires words { home_words_lem ≤ length home.old }
    ensures answer { is_ok result ≡ nat_lt (length (jobs_of home.old)) 256 }
    ensures refused { OnErr result (home.new ≡ home.old) }
    ensures added { OnOk result (JobsNow (jobs_of home.old ++ job_of job ∷ []) home.old home.new) }
{
    if count_jobs(home) >= MAX_JOBS {
        return Err(Full);
    }
    make_job_room(home);
    push_job(home, job);
    Ok(())
}
