// Tasks listed in an answer, each from its row, behind their number.
ghost use Rattle.std.specs.Prelude.{◌≡◌, ℕ, ◌+◌, ◌<◌, ◌≤◌, Bool, if◌then◌else◌, [], ◌∷◌, ◌++◌, length};
ghost use Rattle.model.specs.Lists.{keep};
ghost use Rattle.model.specs.State.{Task};
ghost use Rattle.model.specs.Wire.{Bytes, bytes_of};
ghost use Rattle.jobs.specs.Layout.{home_words_lem, live_words};
ghost use Rattle.jobs.specs.Tables.{task_from, task_slot, tasks_of};
ghost use Rattle.lines.specs.Listings.{Lists, each_bytes};
ghost use Rattle.lines.specs.Puts.{Puts};

use crate::write::put_number;
use jobs::layout::READY_BASE;
use jobs::rows::{TASKS, TaskRow};

// How far is written, and how many tasks these are.
#[derive(Clone, Copy)]
pub struct Listed {
    pub end: usize,
    pub count: u16,
}

// Which tasks are listed, and by which bytes: 54 at most.
pub trait Listing {
    ghost which: { Self → Task → Bool };

    ghost each: { Self → Task → Bytes };

    // Is there one of them in a row.
    fn lists(&self, row: TaskRow<'_>) -> bool
        ensures { (ready : ℕ) → keep (which self.now) (task_slot row.entry.words.now ready) ≡ (if result then task_from row.entry.words.now ready ∷ [] else []) };

    // The bytes of the task in a row.
    fn put_task(&self, out: &mut [u8], at: usize, row: TaskRow<'_>, ready: u64) -> usize
        requires { at + 54 ≤ length out.old }
        ensures bytes { Puts (each self.now (task_from row.entry.words.now ready)) out.old out.new at result }
        ensures room { result ≤ at + 54 };
}

// The task in a row, if it is one of them.
pub fn put_row<L: Listing>(
    listing: &L,
    out: &mut [u8],
    done: Listed,
    row: TaskRow<'_>,
    ready: u64,
) -> Listed
    requires room { done.end + 54 ≤ length out.old }
    requires few { done.count < 65535 }
    ensures lists { Lists (L.Listing.which listing.now) (L.Listing.each listing.now) (task_slot row.entry.words.now ready) out.old out.new done.end done.count result.end result.count }
    ensures room { result.end ≤ done.end + 54 }
    ensures few { result.count ≤ done.count + 1 }
{
    if !listing.lists(row) {
        return done;
    }
    Listed {
        end: listing.put_task(out, done.end, row, ready),
        count: done.count + 1,
    }
}

// All of them. Rows go by number, since one number finds a row in `home` and its flag in `live`, lent as words by a rule of the project.
fn put_rows<L: Listing>(
    listing: &L,
    out: &mut [u8],
    at: usize,
    home: &[u64],
    live: &[u64],
) -> Listed
    requires words { home_words_lem ≤ length home.now }
    requires flags { live_words ≤ length live.now }
    requires room { at + 110592 ≤ length out.old }
    ensures lists { Lists (L.Listing.which listing.now) (L.Listing.each listing.now) (tasks_of home.now live.now) out.old out.new at 0 result.end result.count }
    ensures room { result.end ≤ at + 110592 }
{
    let mut listed = Listed { end: at, count: 0 };
    for i in 0..TASKS.in_use(home) {
        listed = put_row(
            listing,
            out,
            listed,
            TASKS.row(home, i),
            live[READY_BASE + i],
        );
    }
    listed
}

// And how many they are in front, written when that is known.
pub fn put_list<L: Listing>(
    listing: &L,
    out: &mut [u8],
    at: usize,
    home: &[u64],
    live: &[u64],
) -> usize
    requires words { home_words_lem ≤ length home.now }
    requires flags { live_words ≤ length live.now }
    requires room { at + 110594 ≤ length out.old }
    ensures bytes { Puts (bytes_of 2 (length (keep (L.Listing.which listing.now) (tasks_of home.now live.now))) ++ each_bytes (L.Listing.each listing.now) (keep (L.Listing.which listing.now) (tasks_of home.now live.now))) out.old out.new at result }
    ensures room { result ≤ at + 110594 }
{
    let listed = put_rows(listing, out, at + 2, home, live);
    let _ = put_number(out, at, listed.count);
    listed.end
}
