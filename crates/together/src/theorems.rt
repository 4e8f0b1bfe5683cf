// What is shown of all together as it runs, each on the contract of a small function.
ghost use Rattle.together.specs.Now.{AlwaysFits, AnswersStand, NeverOver, NeverWaits, ReadyNow, RunsFit, RunsOnce, TakesFewAlways};
ghost use Rattle.together.specs.Telling.{AllTold};

// Every world that can come to be, with the herd as its code over kept words, cut wherever the power fails, with bytes on
// lines that lose, double, delay and reorder, and with agents as they run, is told of by a world that the model reaches.
pub fn all_told() -> u8
    ensures { AllTold }
{
    0
}

// What runs on a machine fits it: nothing runs there, or the herd has the machine, and what runs there adds up to no more
// than it has.
pub fn runs_fit() -> u8
    ensures { RunsFit }
{
    0
}

// No task runs at two places, nor twice at one.
pub fn runs_once() -> u8
    ensures { RunsOnce }
{
    0
}

// Of no job are there more tasks than its most, nor do more run, on all machines together; unless a line set its most lower,
// or set it anew after one that ended it.
pub fn never_over() -> u8
    ensures { NeverOver }
{
    0
}

// No pass takes a ready task that the least needs.
pub fn takes_few() -> u8
    ensures { TakesFewAlways }
{
    0
}

// No task waits that a machine would take.
pub fn never_waits() -> u8
    ensures { NeverWaits }
{
    0
}

// What is said to be ready is on a machine that the herd has, and that reported lately.
pub fn ready_there() -> u8
    ensures { ReadyNow }
{
    0
}

// What was answered stands: only a line changes the state, as it means; the power takes the time and who was heard, and
// nothing else.
pub fn answers_stand() -> u8
    ensures { AnswersStand }
{
    0
}

// Whatever comes next, the herd's code uses only kept words that there are.
pub fn always_fits() -> u8
    ensures { AlwaysFits }
{
    0
}
