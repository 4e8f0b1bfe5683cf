// Machines in their rows: are opened, closed and heard, go, come, and are counted.
ghost use Rattle.std.specs.Prelude.{◌≡◌, ℕ, ◌+◌, ◌*◌, ◌<◌, ◌≤◌, cond, List, [], ◌∷◌, ◌++◌, map, length, take, is_ok, nat_lt, OnErr, OnOk};
ghost use Rattle.model.specs.Calls.{opened, heard_from, new_machine};
ghost use Rattle.jobs.specs.Layout.{home_words_lem, live_words};
ghost use Rattle.jobs.specs.Rows.{at};
ghost use Rattle.jobs.specs.Tables.{machine_at, machine_rows_lem, machines_of, machines_with, MachinesNow};

use crate::encoding::encode_machine;
use crate::full::Full;
use crate::ids::{Life, ReportNumber};
use crate::layout::*;
use crate::machine::Machine;
use crate::rows::MACHINES;

// The machine in row `i` takes new tasks, or not.
pub fn set_open(home: &mut [u64], i: usize, open: bool)
    requires words { home_words_lem ≤ length home.old }
    requires within { i < machine_rows_lem home.old }
    ensures { (live : List ℕ) → MachinesNow (machines_with home.old live i (map (opened «open») (machine_at home.old live i))) home.old live home.new live }
{
    home[MACHINE_BASE + i * MACHINE_WIDTH + 4] = u64::from(open);
}

// A report of the machine in row `i` was heard.
pub fn hear(
    home: &mut [u64],
    live: &mut [u64],
    i: usize,
    life: Life,
    number: ReportNumber,
    time: u64,
)
    requires words { home_words_lem ≤ length home.old }
    requires flags { live_words ≤ length live.old }
    requires within { i < machine_rows_lem home.old }
    ensures { MachinesNow (machines_with home.old live.old i (map (heard_from life.0 number.0 time) (machine_at home.old live.old i))) home.old live.old home.new live.new }
{
    home[MACHINE_BASE + i * MACHINE_WIDTH + 5] = life.0;
    home[MACHINE_BASE + i * MACHINE_WIDTH + 6] = number.0;
    live[i] = time;
}

// The machine in row `i` is gone.
pub fn remove_machine(home: &mut [u64], i: usize)
    requires words { home_words_lem ≤ length home.old }
    requires within { i < machine_rows_lem home.old }
    ensures { (live : List ℕ) → MachinesNow (machines_with home.old live i []) home.old live home.new live }
{
    MACHINES.remove(home, i);
}

// How many machines there are.
pub fn count_machines(home: &[u64]) -> usize
    requires { home_words_lem ≤ length home.now }
    ensures { (live : List ℕ) → result ≡ length (machines_of home.now live) }
{
    MACHINES.count(home)
}

// Closes the holes between machines.
fn close_machines(home: &mut [u64], live: &mut [u64])
    requires words { home_words_lem ≤ length home.old }
    requires flags { live_words ≤ length live.old }
    ensures now { MachinesNow (machines_of home.old live.old) home.old live.old home.new live.new }
    ensures rows { machine_rows_lem home.new ≡ length (machines_of home.old live.old) }
{
    MACHINES.close(home, &mut live[0..MAX_MACHINES]);
}

// Closes the holes where no row is free.
fn make_machine_room(home: &mut [u64], live: &mut [u64])
    requires words { home_words_lem ≤ length home.old }
    requires flags { live_words ≤ length live.old }
    ensures now { MachinesNow (machines_of home.old live.old) home.old live.old home.new live.new }
    ensures free { length (machines_of home.old live.old) < 256 → machine_rows_lem home.new < 256 }
{
    if MACHINES.in_use(home) == MAX_MACHINES {
        close_machines(home, live);
    }
}

// Writes a machine behind the rows in use.
fn push_machine(home: &mut [u64], live: &mut [u64], m: Machine)
    requires words { home_words_lem ≤ length home.old }
    requires flags { live_words ≤ length live.old }
    requires free { machine_rows_lem home.old < 256 }
    ensures { MachinesNow (machines_of home.old live.old ++ new_machine m.num.0 m.cpu m.mem (take m.count m.tags) ∷ []) home.old live.old home.new live.new }
{
    let n = MACHINES.push(home, &encode_machine(m));
    live[n] = 0;
}

// One more machine, behind the others; refused where there are 256.
pub fn add_machine(home: &mut [u64], live: &mut [u64], m: Machine) -> Result<(), Full>
    requires words { home_words_lem ≤ length home.old }
    requires flags { live_words ≤ length live.old }
    ensures answer { is_ok result ≡ nat_lt (length (machines_of home.old live.old)) 256 }
    ensures refused { OnErr result ((home.new ≡ home.old) × (live.new ≡ live.old)) }
    ensures added { OnOk result (MachinesNow (machines_of home.old live.old ++ new_machine m.num.0 m.cpu m.mem (take m.count m.tags) ∷ []) home.old live.old home.new live.new) }
{
    if count_machines(home) >= MAX_MACHINES {
        return Err(Full);
    }
    make_machine_room(home, live);
    push_machine(home, live, m);
    Ok(())
}
