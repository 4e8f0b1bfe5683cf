// The herd comes to rest: where nothing is asked any more and all works, all is as wanted
// after a number of rounds that is known beforehand.
//
// The definitions stand in specs/. Each function here has a theorem about them for its contract,
// said in plain words above it; the function itself does nothing.
#![tactic(auto)]

ghost use Rattle.rest.specs.Example.{RestIsMet};
ghost use Rattle.rest.specs.Listed.{RunsAsListed};
ghost use Rattle.rest.specs.Rest.{ComesToRest, IsAnswered, RoundCanBe, RoundsCanBe};
ghost use Rattle.rest.specs.Sooner.{ApartUnlowered, ApartWhereKept, ComesSooner};
ghost use Rattle.rest.specs.Unknown.{SparesUnknown};

// If no call comes but reports and times, agents and the herd stay up, each machine reports at least
// every 30,000 ms of told time, what is ordered is ready when its machine reports, there is a machine,
// task numbers are left, and some machine that is open always takes one more task of each job,
// then after so many rounds each job has exactly its count of the present version, all ready,
// nothing else is there, and no task changes from then on: from any world that can be reached,
// whatever happened before.
pub fn comes_to_rest() -> u8
    ensures { ComesToRest }
{
    0
}

// As above, by fewer rounds: 3 and twice the largest, over jobs, of its tasks that aren't ending and its count,
// where the limit of 2,048 tasks cannot bind.
pub fn comes_sooner() -> u8
    ensures { ComesSooner }
{
    0
}

// The limit cannot bind where no job has more than its most and each task is of a job that is wanted.
pub fn apart_where_kept() -> u8
    ensures { ApartWhereKept }
{
    0
}

// So it cannot after a run in which no call lowered a job's most, nor set a job anew over tasks of an ended one.
pub fn apart_unlowered() -> u8
    ensures { ApartUnlowered }
{
    0
}

// At rest, after one more round, there runs on each machine exactly what the herd lists there,
// all of it ready, whenever its agent has obeyed its answer and what is ordered is ready.
pub fn runs_as_listed() -> u8
    ensures { RunsAsListed }
{
    0
}

// The next report of a machine that the herd has is answered, as long as numbers are left.
pub fn is_answered() -> u8
    ensures { IsAnswered }
{
    0
}

// Where all agents are up and numbers are left a round can be made.
pub fn round_can_be() -> u8
    ensures { RoundCanBe }
{
    0
}

// And so any number of rounds, one after the other, as long as the numbers suffice.
pub fn rounds_can_be() -> u8
    ensures { RoundsCanBe }
{
    0
}

// All that is asked is met by a world that comes to rest, by computation: a job's image was changed,
// its old task is ending, and after five rounds one of the new image is there, ready.
pub fn rest_is_met() -> u8
    ensures { RestIsMet }
{
    0
}

// A pass ends no task of a wanted job of which nobody knows whether it is ready: one that is told,
// on a machine that isn't present. So a herd that has just woken takes away nothing that may be ready.
pub fn spares_unknown() -> u8
    ensures { SparesUnknown }
{
    0
}
