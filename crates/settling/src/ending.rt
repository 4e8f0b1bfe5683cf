// Which task of a job ends.
ghost use Rattle.std.specs.Prelude.{◌≡◌};
ghost use Rattle.settling.specs.Scan.{pick_end};

use crate::tally::Picks;

// The last that surely isn't ready; else the last ready one, if enough others are.
pub fn to_end(p: Picks, enough: bool) -> Option<usize>
    ensures { result ≡ pick_end enough p }
{
    if enough { p.idle.or(p.busy) } else { p.idle }
}
