// Rows that are written, come, go, and are moved together, in any table.
ghost use Rattle.std.specs.Prelude.{◌≡◌, ℕ, ◌+◌, ◌*◌, ◌<◌, ◌≤◌, min, length, slice_set};
ghost use Rattle.jobs.specs.Rows.{at, Closed, Moved, Pushed, Shut, WordsPut};

use crate::rows::Table;

// Writes words.
pub fn put_words(home: &mut [u64], start: usize, words: &[u64])
    requires { start + length words.now ≤ length home.old }
    ensures { WordsPut start words.now home.old home.new }
{
    home[start..start + words.len()].copy_from_slice(words);
}

// Moves `n` words down.
fn move_words(home: &mut [u64], from: usize, to: usize, n: usize)
    requires down { to ≤ from }
    requires within { from + n ≤ length home.old }
    ensures { Moved from to n home.old home.new }
{
    home.copy_within(from..from + n, to);
}

// Moves the rows that are no holes together, each with its flag, and says how many there are.
pub fn close_rows(home: &mut [u64], flags: &mut [u64], base: usize, width: usize, n: usize) -> usize
    requires wide { 0 < width }
    requires words { base + n * width ≤ length home.old }
    requires small { base + n * width ≤ 262144 }
    requires flags { n ≤ length flags.old }
    ensures { Closed base width n home.old flags.old home.new flags.new result }
{
    let mut to = 0;
    // By index: rows move within the words that they are read from.
    for i in 0..n {
        if home[base + i * width] != 0 {
            move_words(home, base + i * width, base + to * width, width);
            flags[to] = flags[i];
            to += 1;
        }
    }
    to
}

impl<const BASE: usize, const WIDTH: usize, const MOST: usize, const COUNTED: usize> Table<
    BASE,
    WIDTH,
    MOST,
    COUNTED,
> {
    // Writes row `i`.
    pub fn put(self, home: &mut [u64], i: usize, words: &[u64; WIDTH])
        requires words { BASE + MOST * WIDTH ≤ length home.old }
        requires within { i < MOST }
        ensures { WordsPut (BASE + i * WIDTH) words.now home.old home.new }
    {
        put_words(home, BASE + i * WIDTH, words);
    }

    // Makes row `i` a hole.
    pub fn remove(self, home: &mut [u64], i: usize)
        requires words { BASE + MOST * WIDTH ≤ length home.old }
        requires wide { 0 < WIDTH }
        requires within { i < MOST }
        ensures { home.new ≡ slice_set home.old (BASE + i * WIDTH) 0 }
    {
        home[BASE + i * WIDTH] = 0;
    }

    // Writes a row behind those in use, and says which.
    pub fn push(self, home: &mut [u64], words: &[u64; WIDTH]) -> usize
        requires words { BASE + MOST * WIDTH ≤ length home.old }
        requires counted { COUNTED < length home.old }
        requires free { min (at home.old COUNTED) MOST < MOST }
        ensures row { result ≡ min (at home.old COUNTED) MOST }
        ensures pushed { Pushed BASE WIDTH COUNTED result words.now home.old home.new }
    {
        let n = self.in_use(home);
        self.put(home, n, words);
        home[COUNTED] = n as u64 + 1;
        n
    }

    // Moves the rows that are no holes together, each with its flag.
    pub fn close(self, home: &mut [u64], flags: &mut [u64])
        requires wide { 0 < WIDTH }
        requires words { BASE + MOST * WIDTH ≤ length home.old }
        requires small { BASE + MOST * WIDTH ≤ 262144 }
        requires counted { COUNTED < length home.old }
        requires flags { MOST ≤ length flags.old }
        ensures { Shut BASE WIDTH COUNTED (min (at home.old COUNTED) MOST) home.old flags.old home.new flags.new }
    {
        let n = self.in_use(home);
        let to = close_rows(home, flags, BASE, WIDTH, n);
        home[COUNTED] = to as u64;
    }
}
