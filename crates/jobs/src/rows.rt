// The rows, as parts of the words, and the three tables that they stand in.
ghost use Rattle.std.specs.Prelude.{◌≡◌, ℕ, ◌+◌, ◌*◌, ◌<◌, ◌≤◌, min, not, List, length, ◌==◌};
ghost use Rattle.jobs.specs.Rows.{at, entry_at, row_at, span};

use crate::layout::*;

// A part of the words, of so many.
#[derive(Clone, Copy)]
pub struct Row<'a, const WIDTH: usize> {
    pub words: &'a [u64],
    ghost long: { length words.now ≡ WIDTH },
}

// What a job and its tasks have in common: version, spec and name.
pub type Kind<'a> = Row<'a, 23>;

pub type JobRow<'a> = Row<'a, 26>;

pub type MachineRow<'a> = Row<'a, 24>;

pub type TaskRow<'a> = Row<'a, 27>;

// `MOST` rows of `WIDTH` words from word `BASE` on; word `COUNTED` says how many are in use, holes among them.
#[derive(Clone, Copy)]
pub struct Table<const BASE: usize, const WIDTH: usize, const MOST: usize, const COUNTED: usize>;

pub const JOBS: Table<JOB_BASE, JOB_WIDTH, MAX_JOBS, JOB_ROWS> = Table;

pub const MACHINES: Table<MACHINE_BASE, MACHINE_WIDTH, MAX_MACHINES, MACHINE_ROWS> = Table;

pub const TASKS: Table<TASK_BASE, TASK_WIDTH, MAX_TASKS, TASK_ROWS> = Table;

impl<'a, const WIDTH: usize> Row<'a, WIDTH> {
    // A row that begins with 0 is a hole.
    pub fn is_hole(self) -> bool
        ensures { result ≡ (at self.entry.words.now 0 == 0) }
    {
        match self.words.first() {
            Some(word) => *word == 0,
            None => true,
        }
    }
}

impl<const BASE: usize, const WIDTH: usize, const MOST: usize, const COUNTED: usize> Table<
    BASE,
    WIDTH,
    MOST,
    COUNTED,
> {
    // Row `i`.
    pub fn row<'a>(self, home: &'a [u64], i: usize) -> Row<'a, WIDTH>
        requires words { BASE + MOST * WIDTH ≤ length home.now }
        requires within { i < MOST }
        ensures { result.words.now ≡ row_at BASE WIDTH home.now i }
    {
        let from = BASE + i * WIDTH;
        Row {
            words: &home[from..from + WIDTH],
        }
    }

    // How many rows are in use.
    pub fn in_use(self, home: &[u64]) -> usize
        requires { COUNTED < length home.now }
        ensures is { result ≡ min (at home.now COUNTED) MOST }
        ensures few { result ≤ MOST }
    {
        home[COUNTED].min(MOST as u64) as usize
    }

    // How many rows in use are no holes.
    pub fn count(self, home: &[u64]) -> usize
        requires words { BASE + MOST * WIDTH ≤ length home.now }
        requires counted { COUNTED < length home.now }
        ensures { (flags : List ℕ) → result ≡ length (span (entry_at BASE WIDTH home.now flags) 0 (min (at home.now COUNTED) MOST)) }
    {
        (0..self.in_use(home))
            .filter(
                |i|
                    requires { (BASE + MOST * WIDTH ≤ length home.now) × (i.now < MOST) }
                    ensures { result ≡ not (at (row_at BASE WIDTH home.entry.now i.now) 0 == 0) }
                { !self.row(home, *i).is_hole() },
            )
            .count()
    }
}
