// Tasks that come, and their holes closed.
ghost use Rattle.std.specs.Prelude.{◌≡◌, ℕ, ◌+◌, ◌*◌, ◌%◌, ◌<◌, ◌≤◌, List, [], ◌∷◌, ◌++◌, length};
ghost use Rattle.model.specs.Settle.{fresh, more as grown};
ghost use Rattle.jobs.specs.Layout.{home_words_lem, live_words};
ghost use Rattle.jobs.specs.Rows.{at};
ghost use Rattle.jobs.specs.Tables.{task_rows_lem, tasks_of, job_from_lem, job_row_lem, state_of, TasksOnly, TasksNow};

use crate::layout::*;
use crate::rows::{JOBS, Kind, TASKS};

// The row of a new task of a kind.
fn fresh_row(id: u64, kind: Kind) -> [u64; 27]
    ensures { result ≡ id ∷ 0 ∷ 0 ∷ 0 ∷ kind.entry.words.now }
{
    let mut words = [0; 27];
    words[0] = id;
    words[4..].copy_from_slice(kind.words);
    words
}

// A new task of the job in row `j` comes, waiting, with the next number.
pub fn add_task(home: &mut [u64], live: &mut [u64], j: usize)
    requires words { home_words_lem ≤ length home.old }
    requires flags { live_words ≤ length live.old }
    requires job { j < 256 }
    requires rows { task_rows_lem home.old < 2048 }
    requires numbers { at home.old 0 < 4611686018427387904 }
    ensures state { (time : ℕ) → state_of home.new live.new time ≡ grown (job_from_lem (job_row_lem home.old j)) (state_of home.old live.old time) }
    ensures frame { TasksOnly home.old live.old home.new live.new }
{
    let id = home[LAST_ID] + 1;
    let words = fresh_row(id, JOBS.row(home, j).kind());
    let n = TASKS.push(home, &words);
    live[READY_BASE + n] = 0;
    home[LAST_ID] = id;
}

// Closes the holes: the list stays, and there are no more rows in use than tasks.
pub fn compact(home: &mut [u64], live: &mut [u64])
    requires words { home_words_lem ≤ length home.old }
    requires flags { live_words ≤ length live.old }
    ensures now { TasksNow (tasks_of home.old live.old) home.old live.old home.new live.new }
    ensures rows { task_rows_lem home.new ≡ length (tasks_of home.old live.old) }
{
    TASKS.close(home, &mut live[READY_BASE..LIVE_WORDS]);
}
