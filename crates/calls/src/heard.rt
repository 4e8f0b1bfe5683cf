// What a report makes of a task.
ghost use Rattle.std.specs.Prelude.{◌≡◌, false, List, [], ◌∷◌};
ghost use Rattle.model.specs.State.{Task, is_ending, is_waiting};
ghost use Rattle.jobs.specs.Values.{life_of, machine_of, phase_of};
ghost use Rattle.calls.specs.Meaning.{seens_of};
ghost use Rattle.calls.specs.Heard.{HeardAs};

use crate::call::Reported;
use crate::outcome::Heard;
use crate::seen::seen;
use jobs::ids::TaskId;
use jobs::phase::{Phase, Place};

// Of a task on a machine: it is elsewhere, or was told in another life, or is looked up.
fn heard_there(place: Place, ending: bool, id: TaskId, report: Reported) -> Heard
    ensures { (t : Task) → is_waiting t.phase ≡ false → is_ending t.phase ≡ ending → t.id ≡ id.0 → t.machine ≡ place.machine.0 → t.life ≡ place.life.0 → HeardAs report.entry.machine.0 report.entry.life.0 (seens_of report.entry.tasks.now) t result }
{
    if report.machine != place.machine {
        return Heard::Stays;
    }
    if report.life != place.life {
        return Heard::Gone;
    }
    match seen(report.tasks, id) {
        None if ending => Heard::Gone,
        None => Heard::Marked(false),
        Some(_) if ending => Heard::Stays,
        Some(ready) => Heard::Marked(ready),
    }
}

// (A match over phases, by a rule of the project.)
pub fn heard(phase: Phase, id: TaskId, report: Reported) -> Heard
    ensures { (t : Task) → t.phase ≡ phase_of phase → t.id ≡ id.0 → t.machine ≡ machine_of phase → t.life ≡ life_of phase → HeardAs report.entry.machine.0 report.entry.life.0 (seens_of report.entry.tasks.now) t result }
{
    match phase {
        Phase::Waiting => Heard::Stays,
        Phase::Told(place) | Phase::Ready(place) => heard_there(place, false, id, report),
        Phase::Ending(place) => heard_there(place, true, id, report),
    }
}
