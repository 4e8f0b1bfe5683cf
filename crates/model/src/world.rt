// Of all together, at every moment of every run: one herd, any number of agents,
// and lines that lose, double, delay and reorder, with machines and the herd falling at any time.
ghost use Rattle.model.specs.Promise.{Anchored, NeverTooMuch, NeverTooMuchInAnyLife, NeverTwice};
ghost use Rattle.model.specs.Always.{AlwaysReadyThere, AlwaysTakesFew, FitsEverywhere, NeverBack, NeverOver, NeverWaits, RunsWithin, SameNumber};

// What runs on a machine is among the tasks that the herd counts there, and these fit.
pub fn never_too_much() -> u8
    ensures { NeverTooMuch }
{
    0
}

// The same in whatever life the machine's agent is.
pub fn never_too_much_in_any_life() -> u8
    ensures { NeverTooMuchInAnyLife }
{
    0
}

// What runs on a machine was ordered there, each order is of a task that the herd has there, at its spec,
// and all that runs, each at the spec that was ordered, adds up to no more cpu and memory than the machine has.
pub fn runs_within() -> u8
    ensures { RunsWithin }
{
    0
}

// On whatever machine: nothing runs there, or the herd has it, in this life of its agent, and what runs fits as above.
pub fn fits_everywhere() -> u8
    ensures { FitsEverywhere }
{
    0
}

// Where anything runs, the herd has that machine, in the life in which it runs.
pub fn anchored() -> u8
    ensures { Anchored }
{
    0
}

// No task runs at two places, nor twice at one.
pub fn never_twice() -> u8
    ensures { NeverTwice }
{
    0
}

// In a run in which no call lowered a job's most, nor set the job anew over tasks of an ended one,
// there are never more tasks of it than its most, nor do more of them run, on whatever machines, all together.
pub fn never_over() -> u8
    ensures { NeverOver }
{
    0
}

// Whatever is said to the herd: nothing changes, or the call's own change is followed by one pass.
// Whatever ready task of a wanted job that pass makes end, at least the least stay ready; no other does it make unready.
pub fn always_takes_few() -> u8
    ensures { AlwaysTakesFew }
{
    0
}

// No task waits that a machine would take, also after the herd went dark.
pub fn never_waits() -> u8
    ensures { NeverWaits }
{
    0
}

// A ready task is on a machine that the herd has and that is present.
pub fn always_ready_there() -> u8
    ensures { AlwaysReadyThere }
{
    0
}

// A task there now, with the number of one that was there before, is that task: its job, version and spec.
pub fn same_number() -> u8
    ensures { SameNumber }
{
    0
}

// A task that was gone never comes back, nor does another by its number.
pub fn never_back() -> u8
    ensures { NeverBack }
{
    0
}
