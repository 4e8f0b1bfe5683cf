// What the dark takes, and what there is at first.
ghost use Rattle.std.specs.Prelude.{◌≡◌, ℕ, ◌<◌, ◌≤◌, List, length};
ghost use Rattle.model.specs.State.{blank};
ghost use Rattle.model.specs.Calls.{down};
ghost use Rattle.jobs.specs.Rows.{at};
ghost use Rattle.jobs.specs.Tables.{state_of};

// All words are 0.
pub fn clear(words: &mut [u64])
    ensures { (k : ℕ) → at words.new k ≡ 0 }
{
    words.fill(0);
}

// The power fails and comes back: who was heard and who is ready is lost, and so is the time.
pub fn go_dark(live: &mut [u64])
    ensures { (home : List ℕ) (time : ℕ) → state_of home live.new 0 ≡ down (state_of home live.old time) }
{
    clear(live);
}

// There is nothing yet.
pub fn begin(home: &mut [u64])
    ensures { (live : List ℕ) → state_of home.new live 0 ≡ blank }
{
    clear(home);
}
