// What a report says of a task.
ghost use Rattle.std.specs.Prelude.{◌≡◌, ℕ};
ghost use Rattle.model.specs.Calls.{seen_as};
ghost use Rattle.calls.specs.Meaning.{seens_of};
ghost use Rattle.calls.specs.Seen.{SeenAs};

use jobs::ids::TaskId;
use octets::field::number_at;

// Whether it is listed, and then whether it is ready; the first place counts.
pub fn seen(tasks: &[u8], id: TaskId) -> Option<bool>
    ensures { SeenAs (seen_as id.0 (seens_of tasks.now)) result }
{
    for task in tasks.chunks_exact(9) {
        if TaskId(number_at(task, 0)) == id {
            return Some(task[8] == 1);
        }
    }
    None
}
