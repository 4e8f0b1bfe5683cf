// Finding a job by its name, and a machine by its number.
// (Two functions, here and where they are added: one for both would need a trait with a clause for each key and table, longer than the two.)
ghost use Rattle.std.specs.Prelude.{◌≡◌, ℕ, ◌+◌, ◌*◌, ◌%◌, ◌<◌, ◌≤◌, List, length, take};
ghost use Rattle.model.specs.Lists.{same};
ghost use Rattle.model.specs.State.{is_job, is_machine};
ghost use Rattle.jobs.specs.Layout.{home_words_lem};
ghost use Rattle.jobs.specs.Rows.{at};
ghost use Rattle.jobs.specs.Tables.{job_at, job_rows_lem, machine_at, machine_rows_lem, FoundAt};
ghost use Rattle.jobs.specs.Values.{name_of};

use crate::ids::MachineId;
use crate::name::Name;
use crate::rows::{JOBS, MACHINES};

// The row of the job of that name.
pub fn find_job(home: &[u64], name: &Name) -> Option<usize>
    requires { home_words_lem ≤ length home.now }
    ensures { FoundAt (is_job (name_of name.now)) (job_at home.now) (job_rows_lem home.now) result }
{
    (0..JOBS.in_use(home)).find(|i| JOBS.row(home, *i).is_named(name))
}

// The row of the machine of that number.
pub fn find_machine(home: &[u64], num: MachineId) -> Option<usize>
    requires { home_words_lem ≤ length home.now }
    ensures { (live : List ℕ) → FoundAt (is_machine num.0) (machine_at home.now live) (machine_rows_lem home.now) result }
{
    (0..MACHINES.in_use(home)).find(|i| MACHINES.row(home, *i).is_numbered(num))
}
