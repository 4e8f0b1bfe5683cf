// A task read as a value.
ghost use Rattle.std.specs.Prelude.{◌≡◌, ℕ, ◌+◌, ◌<◌, ◌≤◌, [], length, MatchOption};
ghost use Rattle.jobs.specs.Layout.{home_words_lem, live_words};
ghost use Rattle.jobs.specs.Tables.{task_at};
ghost use Rattle.jobs.specs.Reads.{TaskRead};

use crate::layout::READY_BASE;
use crate::rows::TASKS;
use crate::task::Task;

// The task in row `i`, or none if that is a hole.
pub fn read_task(home: &[u64], live: &[u64], i: usize) -> Option<Task>
    requires words { home_words_lem ≤ length home.now }
    requires flags { live_words ≤ length live.now }
    requires within { i < 2048 }
    ensures { MatchOption result (task_at home.now live.now i ≡ []) (λ t. TaskRead t (task_at home.now live.now i)) }
{
    let row = TASKS.row(home, i);
    if row.is_hole() {
        return None;
    }
    let kind = row.kind();
    Some(Task {
        id: row.id(),
        version: kind.version(),
        spec: kind.spec(),
        phase: row.phase(live[READY_BASE + i]),
    })
}
