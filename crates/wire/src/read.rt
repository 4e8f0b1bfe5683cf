// Answers from bytes.
ghost use Rattle.model.specs.Answers.{read_answer_lem};
ghost use Rattle.wire.specs.Answering.{AnsweredAs, SaysAs};
ghost use Rattle.wire.specs.Replies.{reply_of};

use crate::frame::unframed;
use crate::orders::read_run;
use crate::reply::{Answered, Reply};
use crate::shown::read_lines;
use crate::unread::Unread;
use octets::field::number_at;
use std::alloc::Global;

// What these bytes say. (A match over bytes, by a rule of the project.)
pub fn read_answer(heap: Global, bytes: &[u8]) -> Result<Reply, Unread>
    ensures { SaysAs reply_of (read_answer_lem bytes.now) result }
{
    match bytes {
        [0, number] => Ok(Reply::TurnedAway(*number)),
        [1] => Ok(Reply::Yes),
        [2, rest @ ..] => Ok(Reply::Run(read_run(heap, rest)?)),
        [3, rest @ ..] => Ok(Reply::Lines(read_lines(heap, rest)?)),
        _ => Err(Unread::NoAnswer),
    }
}

// What an answer in its frame says, and its tag; written again they are that line.
pub fn read_reply(heap: Global, line: &[u8]) -> Result<Answered, Unread>
    ensures { AnsweredAs line.now result }
{
    let reply = read_answer(heap, unframed(line))?;
    Ok(Answered {
        tag: number_at(line, 4),
        reply,
    })
}
