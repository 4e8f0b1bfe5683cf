// What is shown of agents, each on the contract of a small function.
ghost use Rattle.agents.specs.Carried.{CarriedOut};
ghost use Rattle.agents.specs.LifeFile.{LifeBack, MixedIsEither, TornIsNone};
ghost use Rattle.agents.specs.Worlds.{AllMovesReach};

// The life file is read as it was written.
pub fn life_back() -> u8
    ensures { LifeBack }
{
    0
}

// A part of the life file says nothing.
pub fn torn_is_none() -> u8
    ensures { TornIsNone }
{
    0
}

// Of two writings, the front of one and the rest of the other say one of the two lives, or nothing.
pub fn mixed_is_either() -> u8
    ensures { MixedIsEither }
{
    0
}

// Each move leads from a world that is reached to one that is reached.
pub fn all_moves_reach() -> u8
    ensures { AllMovesReach }
{
    0
}

// When what is printed to be stopped and started is carried out, there runs what the agent takes to run.
pub fn carried_out() -> u8
    ensures { CarriedOut }
{
    0
}
