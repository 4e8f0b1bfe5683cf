// Counts of 16 bits, added up in 32.
ghost use Rattle.std.specs.Prelude.{◌≡◌, ℕ, ◌+◌, ◌*◌, ◌<◌, ◌≤◌, length};
ghost use Rattle.model.specs.Calls.{all_most, others};
ghost use Rattle.jobs.specs.Layout.{home_words_lem};
ghost use Rattle.jobs.specs.Tables.{job_slot, jobs_of};
ghost use Rattle.jobs.specs.Values.{name_of};

use crate::name::Name;
use crate::rows::{JOBS, JobRow};

// What the job in a row may have at most, unless it is a hole or has that name.
fn most_in(row: JobRow, name: &Name) -> u16
    ensures { result ≡ all_most (others (name_of name.now) (job_slot row.entry.words.now)) }
{
    if row.is_hole() {
        return 0;
    }
    if row.is_named(name) {
        return 0;
    }
    row.most()
}

// What the jobs of other names may have at most, together.
pub fn sum_of_mosts(home: &[u64], name: &Name) -> u32
    requires { home_words_lem ≤ length home.now }
    ensures { result ≡ all_most (others (name_of name.now) (jobs_of home.now)) }
{
    (0..JOBS.in_use(home))
        .map(|i| u32::from(most_in(JOBS.row(home, i), name)))
        .sum()
}
