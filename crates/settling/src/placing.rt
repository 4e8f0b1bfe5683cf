// Tasks that wait are told to machines.
ghost use Rattle.std.specs.Prelude.{◌≡◌, ℕ, ◌+◌, ◌*◌, ◌%◌, ◌<◌, ◌≤◌, length};
ghost use Rattle.model.specs.Settle.{placing as placedAll};
ghost use Rattle.jobs.specs.Layout.{home_words_lem, live_words};
ghost use Rattle.jobs.specs.Rows.{at};
ghost use Rattle.jobs.specs.Tables.{task_rows_lem, state_of};
ghost use Rattle.settling.specs.Scan.{Numbered, Became};
ghost use Rattle.settling.specs.Place.{PlacedRow};

use crate::choosing::choose;
use crate::load::Load;
use crate::loads::weigh_all;
use jobs::phase::Place;
use jobs::rows::{MACHINES, MachineRow, TASKS};
use jobs::tasks::place_task;

// The place on the machine in a row, in the life that was last heard.
fn place_on(row: MachineRow) -> Place
    ensures machine { result.machine.0 ≡ at row.entry.words.now 1 % 65536 }
    ensures life { result.life.0 ≡ at row.entry.words.now 5 }
{
    Place {
        machine: row.num(),
        life: row.life(),
    }
}

// The task in row `i`, if it waits, goes to the best machine that takes it beside all that is there.
fn place_row(home: &mut [u64], live: &mut [u64], i: usize, loads: &mut [Load], time: u64)
    requires words { home_words_lem ≤ length home.old }
    requires flags { live_words ≤ length live.old }
    requires within { i < task_rows_lem home.old }
    requires size { length loads.old ≡ 256 }
    requires numbered { Numbered (state_of home.old live.old time) }
    ensures { PlacedRow i home.old live.old home.new live.new time }
{
    let row = TASKS.row(home, i);
    if row.is_hole() || !row.is_waiting() {
        return;
    }
    let kind = row.kind();
    let name = kind.name();
    let spec = kind.spec();
    weigh_all(home, &name, loads);
    if let Some(choice) = choose(home, live, i, &spec, loads, time) {
        let place = place_on(MACHINES.row(home, choice.at));
        place_task(home, live, i, place);
    }
}

// Each task that waits, by number.
pub fn place_all(home: &mut [u64], live: &mut [u64], loads: &mut [Load], time: u64)
    requires words { home_words_lem ≤ length home.old }
    requires flags { live_words ≤ length live.old }
    requires size { length loads.old ≡ 256 }
    requires numbered { Numbered (state_of home.old live.old time) }
    ensures { Became (placedAll (state_of home.old live.old time)) home.old live.old home.new live.new time }
{
    // By number: a row is changed where it stands, so nothing can lend the rows meanwhile.
    for i in 0..TASKS.in_use(home) {
        place_row(home, live, i, loads, time);
    }
}
