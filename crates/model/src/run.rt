// Of code over words that a battery keeps, cut wherever the power fails.
//
// That of every run of right code what happened may happen is a statement about all codes, too large for a contract:
// it is proved in proofs/Runs, and named here, as by every crate that has code, at one code.
ghost use Rattle.model.specs.Promise.{DarkOnce, SilentRight};
ghost use Rattle.model.specs.Always.{WhateverHappens};

// Going dark twice is going dark once, and at the beginning the dark changes nothing.
pub fn dark_once() -> u8
    ensures { DarkOnce }
{
    0
}

// The code that has built nothing and answers every call by 12 is right for that, what happens in its runs may happen,
// and it uses only words that there are.
pub fn silent_right() -> u8
    ensures { SilentRight }
{
    0
}

// Whatever may have happened, answered, cut or dark, with whichever calls are built:
// the state is good, and no task waits that a machine would take.
pub fn whatever_happens() -> u8
    ensures { WhateverHappens }
{
    0
}
