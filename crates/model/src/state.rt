// Of one call, one pass, one state.
ghost use Rattle.model.specs.Promise.{LeastStay, LeastStays, NeverMore, StaysGood, WaitsForRoom};
ghost use Rattle.model.specs.Always.{OrdersAll, PassTakesFew, RefusalKeeps};

// Jobs keep different names, machines different numbers, and tasks rising numbers below the next one:
// through every call, every pass and the dark.
pub fn stays_good() -> u8
    ensures { StaysGood }
{
    0
}

// A call that is answered by a number leaves the state as it was: every call, in every state.
pub fn refusal_keeps() -> u8
    ensures { RefusalKeeps }
{
    0
}

// A report that is taken is answered with its number and with exactly the tasks
// that are on the machine afterwards and aren't ending, each at its spec.
pub fn orders_all() -> u8
    ensures { OrdersAll }
{
    0
}

// No call brings a job more tasks than its most, unless it sets that most lower,
// or sets the job anew while tasks of an ended job of its name are there.
pub fn never_more() -> u8
    ensures { NeverMore }
{
    0
}

// A pass leaves as many of a job ready as are to stay, or no fewer than were.
pub fn least_stay() -> u8
    ensures { LeastStay }
{
    0
}

// The same of every job that is there, without saying that it is found by its name.
pub fn least_stays() -> u8
    ensures { LeastStays }
{
    0
}

// A ready task of a wanted job is there after a pass as it was, ready;
// or it was made to end, and then at least the least are ready afterwards.
pub fn pass_takes_few() -> u8
    ensures { PassTakesFew }
{
    0
}

// After a pass no task waits that a machine would take.
pub fn waits_for_room() -> u8
    ensures { WaitsForRoom }
{
    0
}
