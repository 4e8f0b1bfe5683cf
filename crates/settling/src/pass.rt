// The pass.
// The two slices stay parameters with their clauses: a struct that lends both needs clauses on its borrows in each function, so it is no plainer.
ghost use Rattle.std.specs.Prelude.{◌≡◌, ℕ, ◌+◌, ◌*◌, ◌<◌, ◌≤◌, length};
ghost use Rattle.model.specs.Promise.{Good};
ghost use Rattle.model.specs.Settle.{settle as settled};
ghost use Rattle.jobs.specs.Layout.{home_words_lem, live_words};
ghost use Rattle.jobs.specs.Tables.{state_of};
ghost use Rattle.settling.specs.Scan.{Numbered, Became};

use crate::load::Load;
use crate::placing::place_all;
use crate::sweeping::{end_orphans, step_jobs};
use jobs::layout::MAX_MACHINES;

// One pass at that time. Only tasks and the last number given change.
pub fn settle(home: &mut [u64], live: &mut [u64], time: u64)
    requires words { home_words_lem ≤ length home.old }
    requires flags { live_words ≤ length live.old }
    requires numbered { Numbered (state_of home.old live.old time) }
    ensures state { Became (settled (state_of home.old live.old time)) home.old live.old home.new live.new time }
    ensures good { Good (state_of home.old live.old time) → Good (state_of home.new live.new time) }
    ensures numbered { Numbered (state_of home.new live.new time) }
{
    end_orphans(home);
    step_jobs(home, live, time);
    let mut loads = [Load::default(); MAX_MACHINES];
    place_all(home, live, &mut loads, time);
}
