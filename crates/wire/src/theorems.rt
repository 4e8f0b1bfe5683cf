// What is shown of calls and answers as bytes, each on the contract of a small function.
ghost use Rattle.model.specs.Answers.{FrameBack, NoOtherRuns, NoReportRuns, RunsBack};
ghost use Rattle.wire.specs.Fits.{AnswersAgain, AnswersBack, CallsAgain, CallsBack, NoOtherAnswers, NoOtherCalls};
ghost use Rattle.wire.specs.Herd.{HerdAnswersBack};

// A call is read as it was written.
pub fn calls_back() -> u8
    ensures { CallsBack }
{
    0
}

// Bytes that are a call are the bytes that it is written as, and no others.
pub fn calls_again() -> u8
    ensures { CallsAgain }
{
    0
}

// Bytes that are those of no call are read as none.
pub fn no_other_calls() -> u8
    ensures { NoOtherCalls }
{
    0
}

// An answer is read as it was written.
pub fn answers_back() -> u8
    ensures { AnswersBack }
{
    0
}

// Bytes that are an answer are the bytes that it is written as, and no others.
pub fn answers_again() -> u8
    ensures { AnswersAgain }
{
    0
}

// Bytes that are those of no answer are read as none.
pub fn no_other_answers() -> u8
    ensures { NoOtherAnswers }
{
    0
}

// Whatever words it has, what the herd answers is read as it means.
pub fn herd_answers_back() -> u8
    ensures { HerdAnswersBack }
{
    0
}

// An answer to a report is read as it was written.
pub fn runs_back() -> u8
    ensures { RunsBack }
{
    0
}

// No other answer is read as an answer to a report, and no report is.
pub fn no_other_runs() -> u8
    ensures { NoOtherRuns × NoReportRuns }
{
    0
}

// What was framed is unframed, and bears its tag.
pub fn frame_back() -> u8
    ensures { FrameBack }
{
    0
}
