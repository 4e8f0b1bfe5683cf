// What is on each machine, added up in one scan of the tasks.
ghost use Rattle.std.specs.Prelude.{◌≡◌, ℕ, ◌+◌, ◌*◌, ◌%◌, ◌<◌, ◌≤◌, List, length, get_or, slice_index_or};
ghost use Rattle.jobs.specs.Layout.{home_words_lem};
ghost use Rattle.jobs.specs.Tables.{task_at, tasks_of, machine_rows_lem};
ghost use Rattle.jobs.specs.Values.{name_of};
ghost use Rattle.settling.specs.declared.load.Load.{Load as LoadT};
ghost use Rattle.settling.specs.Place.{Loaded, weight_of, heavier, no_load, num_at};

use crate::load::{Load, Weight};
use jobs::ids::MachineId;
use jobs::name::Name;
use jobs::rows::{MACHINES, TASKS};

// What the task in row `i` adds to its machine.
fn weight(home: &[u64], i: usize, job: &Name) -> Option<Weight>
    requires words { home_words_lem ≤ length home.now }
    requires within { i < 2048 }
    ensures { (live : List ℕ) → result ≡ weight_of (name_of job.now) (task_at home.now live i) }
{
    let row = TASKS.row(home, i);
    if row.is_hole() || row.is_waiting() {
        return None;
    }
    let kind = row.kind();
    Some(Weight {
        machine: row.machine(),
        cpu: kind.cpu(),
        mem: kind.mem(),
        mine: kind.is_named(job),
    })
}

// The load of a machine with one task more, if that is on it.
fn add_weight(load: Load, num: MachineId, w: Weight) -> Load
    requires cpu { load.cpu < 1000000000000000 }
    requires mem { load.mem < 1000000000000000 }
    ensures { result ≡ heavier num.0 w load }
{
    if num != w.machine {
        return load;
    }
    Load {
        cpu: load.cpu + u64::from(w.cpu),
        mem: load.mem + u64::from(w.mem),
        mine: load.mine || w.mine,
    }
}

// One task more is on its machine.
fn add_to_all(home: &[u64], w: Weight, loads: &mut [Load])
    requires words { home_words_lem ≤ length home.now }
    requires size { length loads.old ≡ 256 }
    requires few { (r : ℕ) (e : LoadT) → r < machine_rows_lem home.now → ((get_or loads.old r e).cpu < 1000000000000000) × ((get_or loads.old r e).mem < 1000000000000000) }
    ensures { (r : ℕ) (e : LoadT) → r < machine_rows_lem home.now → slice_index_or loads.new r e ≡ heavier (num_at home.now r) w (slice_index_or loads.old r e) }
{
    for (r, load) in loads[..MACHINES.in_use(home)].iter_mut().enumerate() {
        *load = add_weight(*load, MACHINES.row(home, r).num(), w);
    }
}

// What is on each machine, and whether a task of that job is. (The loads are lent, one for each machine's row: nothing allocates.)
pub fn weigh_all(home: &[u64], job: &Name, loads: &mut [Load])
    requires words { home_words_lem ≤ length home.now }
    requires size { length loads.old ≡ 256 }
    ensures { (live : List ℕ) → Loaded (name_of job.now) home.now (tasks_of home.now live) loads.new }
{
    loads.fill(Load::default());
    for w in (0..TASKS.in_use(home)).filter_map(|i| weight(home, i, job)) {
        add_to_all(home, w, loads);
    }
}
