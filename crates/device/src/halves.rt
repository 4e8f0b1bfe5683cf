// Changes of the home words, all or nothing, in two halves of the kept memory that take turns.
ghost use Rattle.std.specs.Prelude.{◌≡◌, ℕ, ◌+◌, ◌*◌, ◌<◌, ◌≤◌, List, length, slice_index};
ghost use Rattle.device.specs.Budget.{Budget};
ghost use Rattle.device.specs.Follows.{Ended, Follows, FollowsTo};
ghost use Rattle.device.specs.Halves.{held_at, spare_at, turned, differs, copies, commits, wakening, Whole, Holds};
ghost use Rattle.device.specs.Service.{keeping, finishing};

use crate::kept::{Dark, Kept};

// Where the half stands that holds, where the other, and what word 0 is once the other holds.
#[derive(Clone, Copy, Drop)]
struct Places {
    held: usize,
    spare: usize,
    turned: u64,
}

fn locate(mark: u64, size: usize) -> Places
    requires { 2 * size < 262144 }
    ensures holds { result.held ≡ held_at size mark }
    ensures other { result.spare ≡ spare_at size mark }
    ensures turns { result.turned ≡ turned mark }
    ensures room { (result.held + size ≤ 262144) × (result.spare + size ≤ 262144) }
{
    if mark % 2 == 0 {
        Places {
            held: 1,
            spare: 1 + size,
            turned: 1,
        }
    } else {
        Places {
            held: 1 + size,
            spare: 1,
            turned: 0,
        }
    }
}

// How many words differ from those that stand there.
fn differ<K: Kept>(words: &K, from: usize, home: &[u64]) -> usize
    requires { from + length home.now ≤ 262144 }
    ensures { Ended (differs from 0 home.now) (K.word words.now) result (K.word words.now) }
{
    home.iter()
        .enumerate()
        .filter(|(i, word)| words.load(from + *i) != **word)
        .count()
}

// Stores each word that differs: in the half that holds, or in the other, which nothing looks at yet.
fn copy<K: Kept>(words: &mut K, from: usize, home: &[u64]) -> Result<(), Dark>
    requires { from + length home.now ≤ 262144 }
    ensures { Follows (copies from home.now) (K.word words.old) result (tt {0}) (K.word words.new) }
{
    for (i, word) in home.iter().enumerate() {
        if words.load(from + i) != *word {
            words.store(from + i, *word)?;
        }
    }
    Ok(())
}

// Reads as many words from there as there is room for.
fn read<K: Kept>(words: &K, from: usize, home: &mut [u64])
    requires { from + length home.old ≤ 262144 }
    ensures { (j : ℕ) → j < length home.old → slice_index home.new j ≡ K.word words.now (from + j) }
{
    for (i, word) in home.iter_mut().enumerate() {
        *word = words.load(from + i);
    }
}

// Makes these the home words: all of them, or none where the power fails before the end.
pub fn commit<K: Kept>(words: &mut K, home: &[u64]) -> Result<(), Dark>
    requires { 2 * length home.now < 262144 }
    ensures follows { Follows (commits home.now) (K.word words.old) result (tt {0}) (K.word words.new) }
    ensures whole { Whole home.now (K.word words.old) result (K.word words.new) }
    ensures budget { Budget home.now (K.word words.old) }
{
    let at = locate(words.load(0), home.len());
    if differ(words, at.held, home) <= 1 {
        return copy(words, at.held, home);
    }
    copy(words, at.spare, home)?;
    words.store(0, at.turned)
}

// Makes these the home words if they may have changed; if not, nothing is looked at.
// (The words and whether they changed, and not an `Option` of the words: both are at hand, so an `Option` would be made to be taken apart.)
pub fn keep<K: Kept>(words: &mut K, home: &[u64], changed: bool) -> Result<(), Dark>
    requires { 2 * length home.now < 262144 }
    ensures { Follows (keeping changed home.now) (K.word words.old) result (tt {0}) (K.word words.new) }
{
    if changed {
        return commit(words, home);
    }
    Ok(())
}

// Keeps the home words if they may have changed, and then hands the answer on: what a service does once it has answered in memory.
pub fn finish<K: Kept, V: Drop>(
    words: &mut K,
    home: &[u64],
    changed: bool,
    answer: V,
) -> Result<V, Dark>
    requires { 2 * length home.now < 262144 }
    ensures { FollowsTo (finishing changed home.now answer) (K.word words.old) result (λ v. v) (K.word words.new) }
{
    keep(words, home, changed)?;
    Ok(answer)
}

// Reads the home words; it only loads, and any words are some home.
pub fn wake<K: Kept>(words: &K, home: &mut [u64])
    requires { 2 * length home.old < 262144 }
    ensures follows { Ended (wakening (length home.old)) (K.word words.now) home.new (K.word words.now) }
    ensures whole { (h : List ℕ) → length h ≡ length home.old → Holds h (K.word words.now) → home.new ≡ h }
{
    let at = locate(words.load(0), home.len());
    read(words, at.held, home);
}
