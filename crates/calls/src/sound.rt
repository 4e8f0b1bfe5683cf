// Are the home words sound, as calls leave them: different names and numbers, and tasks by rising numbers that were given.
// The herd asks when it wakes: words that aren't are damaged.
ghost use Rattle.std.specs.Prelude.{◌≡◌, ◌<◌, ◌≤◌, [], length};
ghost use Rattle.model.specs.Promise.{once_jobs, once_machines};
ghost use Rattle.jobs.specs.Layout.{home_words_lem};
ghost use Rattle.jobs.specs.Rows.{at};
ghost use Rattle.jobs.specs.Tables.{job_rows_lem, jobs_of, machine_rows_lem, machines_of, tasks_of};
ghost use Rattle.calls.specs.Sound.{first_job_lem, first_machine_lem, sound_tasks_lem, sound_words};

use jobs::finding::{find_job, find_machine};
use jobs::layout::LAST_ID;
use jobs::rows::{JOBS, MACHINES, TASKS};

// Is the job in row `i`, if there is one, the first of its name.
// (Jobs and machines apart, as they are found: what is compared is a name there and a number here.)
fn first_job(home: &[u64], i: usize) -> bool
    requires words { home_words_lem ≤ length home.now }
    requires within { i < job_rows_lem home.now }
    ensures { result ≡ first_job_lem home.now i }
{
    let row = JOBS.row(home, i);
    if row.is_hole() {
        return true;
    }
    find_job(home, &row.kind().name()) == Some(i)
}

// Is the machine in row `i`, if there is one, the first of its number.
fn first_machine(home: &[u64], i: usize) -> bool
    requires words { home_words_lem ≤ length home.now }
    requires within { i < machine_rows_lem home.now }
    ensures { result ≡ first_machine_lem home.now i }
{
    let row = MACHINES.row(home, i);
    if row.is_hole() {
        return true;
    }
    find_machine(home, row.num()) == Some(i)
}

// Have all jobs different names.
fn sound_jobs(home: &[u64]) -> bool
    requires { home_words_lem ≤ length home.now }
    ensures { result ≡ once_jobs (jobs_of home.now) }
{
    (0..JOBS.in_use(home)).all(|i| first_job(home, i))
}

// Have all machines different numbers.
fn sound_machines(home: &[u64]) -> bool
    requires { home_words_lem ≤ length home.now }
    ensures { result ≡ once_machines (machines_of home.now []) }
{
    (0..MACHINES.in_use(home)).all(|i| first_machine(home, i))
}

// Do the tasks' numbers rise, and are they all given.
fn sound_tasks(home: &[u64]) -> bool
    requires { home_words_lem ≤ length home.now }
    ensures { result ≡ sound_tasks_lem (at home.now 0) (tasks_of home.now []) }
{
    let mut last = 0;
    // A loop: holes lie between, and `filter` with `try_fold`, which carries the last number, would be as long.
    for i in 0..TASKS.in_use(home) {
        let id = TASKS.row(home, i).words[0];
        if id != 0 {
            if id <= last || id > home[LAST_ID] {
                return false;
            }
            last = id;
        }
    }
    true
}

// Are the words sound: then, and only then, what they stand for is a good state, from which calls go on as promised.
pub fn is_sound(home: &[u64]) -> bool
    requires { home_words_lem ≤ length home.now }
    ensures { result ≡ sound_words home.now }
{
    sound_jobs(home) && sound_machines(home) && sound_tasks(home)
}
