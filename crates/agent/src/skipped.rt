// Why a line is not followed, or not to its end. Only where lines can't be printed any more, the agent doesn't go on.
use crate::line::Fault;
use agents::agent::{NotRunning, Passed, Unsent};
use agents::text::Unhexed;
use jobs::ids::TaskId;
use std::io;
use thiserror::Error;

#[derive(Debug, Drop, Error)]
pub enum Skipped {
    #[error("a line is passed over: {0}")]
    Line(#[from] Fault),
    #[error("a line is passed over: say `report`, `answer HEX`, `ready T` or `dies T`")]
    Meaningless,
    #[error("no report is sent: {0}")]
    Report(#[from] Unsent),
    // It was made, and is as if it was lost on its way.
    #[error("a report is not sent: no memory for its text; ask again")]
    Text,
    #[error("an answer is passed over: {0}")]
    Digits(#[from] Unhexed),
    #[error("an answer is passed over: {0}")]
    Answer(#[from] Passed),
    #[error("`ready {0}` is passed over: {1}")]
    Ready(TaskId, NotRunning),
    #[error("`dies {0}` is passed over: {1}")]
    Dies(TaskId, NotRunning),
    #[error("no memory to start again what died; it is started with the next answer")]
    Start,
    #[error("lines cannot be read or printed any more: {0}")]
    Lines(#[from] io::Error),
}
