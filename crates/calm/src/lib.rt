// Coming to rest, said of the world as it really runs: its rounds are rounds of the herd's code over kept words, of bytes on
// lines and of agents' code, and what is at rest is what really runs.
//
// The definitions stand in specs/. Each function here has a theorem about them for its contract,
// said in plain words above it; the function itself does nothing.
#![tactic(auto)]

ghost use Rattle.calm.specs.Rest.{CalmIsMove, ReallyAsListed, ReallyRests, ReallySooner};

// Where no line comes to the herd but reports, times that machines can keep up with, and bytes that say nothing, the herd
// and agents stay up, agents obey what they are answered before they report again, what is ordered is ready when its machine
// reports, there is a machine, task numbers are left, and some machine that is open always takes one more task of each job,
// then after so many rounds, from any world that came to be, the herd's words tell of each job's exact count of
// the present version, all ready, of nothing else, and no task changes from then on.
pub fn comes_to_rest() -> u8
    ensures { ReallyRests }
{
    0
}

// As above, by fewer rounds, where the limit of 2,048 tasks cannot bind.
pub fn sooner() -> u8
    ensures { ReallySooner }
{
    0
}

// At rest, after one more round, there really runs on each machine exactly what the herd lists there, all of it ready,
// whenever its agent is up and has obeyed its answer and what is ordered is ready.
pub fn runs_as_listed() -> u8
    ensures { ReallyAsListed }
{
    0
}

// Each calm move is a move of the world as it really runs.
pub fn calm_is_move() -> u8
    ensures { CalmIsMove }
{
    0
}
