// Answers to reports, from bytes.
ghost use Rattle.model.specs.Answers.{read_answer_lem};
ghost use Rattle.agents.specs.Answering.{HeardAs};

use crate::agent::Passed;
use crate::head::Head;
use crate::heard::Run;
use std::alloc::Global;
use wire::read;
use wire::reply::Reply;

// What these bytes say: a refusal, or what is to run; no other answer comes to a report. One of another kind is passed over by its
// first byte, so that a long showing asks for no memory.
pub fn read_answer(heap: Global, bytes: &[u8]) -> Result<Run, Passed>
    ensures { HeardAs (read_answer_lem bytes.now) result }
{
    if let [1 | 3, ..] = bytes {
        return Err(Passed::NoAnswer);
    }
    match read::read_answer(heap, bytes)? {
        Reply::Run(run) => Ok(Run {
            head: Head {
                machine: run.on.machine,
                life: run.on.life,
                number: run.on.number,
            },
            orders: run.orders,
        }),
        Reply::TurnedAway(number) => Err(Passed::Refused(number)),
        Reply::Yes | Reply::Lines(_) => Err(Passed::NoAnswer),
    }
}
