// Which machine a task goes to.
ghost use Rattle.std.specs.Prelude.{◌≡◌, ℕ, ◌+◌, ◌-◌, ◌*◌, ◌<◌, ◌≤◌, min, List, map, length, take, drop, nat_eq};
ghost use Rattle.model.specs.Lists.{some, keep};
ghost use Rattle.model.specs.Settle.{takes, best as bestOf};
ghost use Rattle.jobs.specs.Layout.{home_words_lem, live_words};
ghost use Rattle.jobs.specs.Rows.{at};
ghost use Rattle.jobs.specs.Tables.{low, machine_at, machine_from, machine_rows_lem, machines_of, tasks_of};
ghost use Rattle.jobs.specs.Values.{spec_of};
ghost use Rattle.settling.specs.Place.{Loaded, fits_on_lem, improved, Chosen, task_in};

use crate::load::{Choice, Load};
use crate::presence::heard_lately;
use jobs::kinds::low_half;
use jobs::rows::{MACHINES, MachineRow};
use jobs::spec::Spec;

// Has the machine in a row that tag.
fn has_tag(row: MachineRow, tag: u32) -> bool
    ensures { result ≡ some (nat_eq tag) (take (min (at row.entry.words.now 7) 16) (map low (drop 8 row.entry.words.now))) }
{
    let count = row.words[7].min(16) as usize;
    row.words[8..8 + count]
        .iter()
        .any(|word| tag == low_half(*word))
}

// Is the machine in a row open, present, free of the job where its tasks are to be apart, and with room.
fn fits_on(row: MachineRow, heard: u64, spec: &Spec, load: Load, time: u64) -> bool
    ensures { result ≡ fits_on_lem time (spec_of spec.now) load (machine_from row.entry.words.now heard) }
{
    let cpu = row.cpu();
    let mem = row.mem();
    row.is_open()
        && heard_lately(heard, time)
        && !(spec.apart && load.mine)
        && spec.cpu <= cpu
        && load.cpu <= u64::from(cpu - spec.cpu)
        && spec.mem <= mem
        && load.mem <= u64::from(mem - spec.mem)
}

// The better of a choice and one more. (A match: `filter` and `or` would hide that of two alike the first stays.)
fn improve(best: Option<Choice>, at: usize, left: u64) -> Option<Choice>
    ensures { result ≡ improved best at left }
{
    match best {
        Some(c) if left <= c.left => best,
        _ => Some(Choice { at, left }),
    }
}

// The machine with most cpu left of those that take the task in row `i`, the first of those alike.
pub fn choose(
    home: &[u64],
    live: &[u64],
    i: usize,
    spec: &Spec,
    loads: &[Load],
    time: u64,
) -> Option<Choice>
    requires words { home_words_lem ≤ length home.now }
    requires flags { live_words ≤ length live.now }
    requires size { length loads.now ≡ 256 }
    requires spec { spec_of spec.now ≡ (task_in home.now live.now i).spec }
    requires loads { Loaded (task_in home.now live.now i).job home.now (tasks_of home.now live.now) loads.now }
    ensures { Chosen (machine_at home.now live.now) (machine_rows_lem home.now) (tasks_of home.now live.now) result (bestOf (keep (takes time (task_in home.now live.now i) (tasks_of home.now live.now)) (machines_of home.now live.now)) (tasks_of home.now live.now)) }
{
    let mut best = None;
    // A labelled loop over machines and tags, left at the first that fails: a rule of the project.
    'machines: for r in 0..MACHINES.in_use(home) {
        let row = MACHINES.row(home, r);
        if row.is_hole() {
            continue;
        }
        let load = loads[r];
        if !fits_on(row, live[r], spec, load, time) {
            continue;
        }
        for tag in &spec.tags[..usize::from(spec.count)] {
            if !has_tag(row, *tag) {
                continue 'machines;
            }
        }
        best = improve(best, r, u64::from(row.cpu()) - load.cpu);
    }
    best
}
