// Tasks in their rows: reading one, and changing it where it stands.
ghost use Rattle.std.specs.Prelude.{◌≡◌, ℕ, ◌+◌, ◌*◌, ◌%◌, ◌<◌, ◌≤◌, List, [], length, if◌then◌else◌, nat_eq, ◌==◌};
ghost use Rattle.jobs.specs.Layout.{home_words_lem, live_words};
ghost use Rattle.jobs.specs.Rows.{at};
ghost use Rattle.jobs.specs.Tables.{low, spec_from_lem, version_from_lem, phase_from_lem, task_at, TaskPut};
ghost use Rattle.jobs.specs.Values.{spec_of, phase_of, machine_of, life_of, mark_of};
ghost use Rattle.jobs.specs.Changes.{end_each, place_each, mark_each};

use crate::ids::{Life, MachineId, TaskId};
use crate::kinds::machine_number;
use crate::layout::*;
use crate::phase::{Mark, Phase, Place};
use crate::rows::{TASKS, TaskRow};

// Ends the task in row `i`: one that waits is gone, any other is ending.
pub fn end_task(home: &mut [u64], i: usize)
    requires words { home_words_lem ≤ length home.old }
    requires within { i < 2048 }
    ensures { (live : List ℕ) → TaskPut i (end_each (task_at home.old live i)) home.old live home.new live }
{
    match TASKS.row(home, i).mark() {
        Mark::Waiting => TASKS.remove(home, i),
        Mark::Placed | Mark::Ending => {
            home[TASK_BASE + i * TASK_WIDTH + 1] = Mark::Ending as u64;
        }
    }
}

// Makes row `i` a hole.
pub fn remove_task(home: &mut [u64], i: usize)
    requires words { home_words_lem ≤ length home.old }
    requires within { i < 2048 }
    ensures { (live : List ℕ) → TaskPut i [] home.old live home.new live }
{
    TASKS.remove(home, i);
}

// Tells the task in row `i` to a machine.
pub fn place_task(home: &mut [u64], live: &mut [u64], i: usize, place: Place)
    requires words { home_words_lem ≤ length home.old }
    requires flags { live_words ≤ length live.old }
    requires within { i < 2048 }
    ensures { TaskPut i (place_each place.machine.0 place.life.0 (task_at home.old live.old i)) home.old live.old home.new live.new }
{
    let start = TASK_BASE + i * TASK_WIDTH;
    home[start + 1] = Mark::Placed as u64;
    home[start + 2] = u64::from(place.machine.0);
    home[start + 3] = place.life.0;
    live[READY_BASE + i] = 0;
}

// A task that is told or ready is ready, or told.
pub fn mark_task(live: &mut [u64], i: usize, ready: bool)
    requires flags { live_words ≤ length live.old }
    requires within { i < 2048 }
    ensures { (home : List ℕ) → home_words_lem ≤ length home → TaskPut i (mark_each ready (task_at home live.old i)) home live.old home live.new }
{
    live[READY_BASE + i] = u64::from(ready);
}

impl TaskRow<'_> {
    pub fn id(self) -> TaskId
        ensures { result.0 ≡ at self.entry.words.now 0 }
    {
        TaskId(self.words[0])
    }

    // Its machine, if it doesn't wait.
    pub fn machine(self) -> MachineId
        ensures { result.0 ≡ at self.entry.words.now 2 % 65536 }
    {
        machine_number(self.words[2])
    }

    // Whether it waits, is on its machine, or is ending there.
    pub fn mark(self) -> Mark
        ensures { result ≡ mark_of (at self.entry.words.now 1) }
    {
        match self.words[1] {
            0 => Mark::Waiting,
            1 => Mark::Placed,
            _ => Mark::Ending,
        }
    }

    // Does it wait.
    pub fn is_waiting(self) -> bool
        ensures { result ≡ (at self.entry.words.now 1 == 0) }
    {
        self.words[1] == Mark::Waiting as u64
    }

    // Is it on its machine, and not ending.
    pub fn is_placed(self) -> bool
        ensures { result ≡ (at self.entry.words.now 1 == 1) }
    {
        self.words[1] == Mark::Placed as u64
    }

    // Its phase, by the word in `live` that says whether it is ready.
    pub fn phase(self, ready: u64) -> Phase
        ensures phase { phase_of result ≡ phase_from_lem (at self.entry.words.now 1) ready }
        ensures machine { machine_of result ≡ (if nat_eq (at self.entry.words.now 1) 0 then 0 else at self.entry.words.now 2 % 65536) }
        ensures life { life_of result ≡ (if nat_eq (at self.entry.words.now 1) 0 then 0 else at self.entry.words.now 3) }
    {
        let place = Place {
            machine: self.machine(),
            life: Life(self.words[3]),
        };
        match self.mark() {
            Mark::Waiting => Phase::Waiting,
            Mark::Placed if ready == 0 => Phase::Told(place),
            Mark::Placed => Phase::Ready(place),
            Mark::Ending => Phase::Ending(place),
        }
    }
}
