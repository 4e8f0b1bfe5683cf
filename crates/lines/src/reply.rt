// The answer to a call, in its frame, as bytes.
ghost use Rattle.std.specs.Prelude.{◌≡◌, ℕ, ◌+◌, ◌<◌, ◌≤◌, [], length, take};
ghost use Rattle.model.specs.Lists.{keep};
ghost use Rattle.model.specs.State.{of_job, on_machine};
ghost use Rattle.model.specs.Calls.{lines_of, orders};
ghost use Rattle.model.specs.Wire.{Runs, Shown, answer_bytes};
ghost use Rattle.model.specs.Lines.{framed};
ghost use Rattle.jobs.specs.Layout.{home_words_lem, live_words};
ghost use Rattle.jobs.specs.Tables.{state_of, tasks_of};
ghost use Rattle.calls.specs.Answers.{answer_of};
ghost use Rattle.lines.specs.Puts.{Puts};
ghost use Rattle.lines.specs.Replied.{reply_room};

use crate::kind::AnswerKind;
use crate::list::{OfJob, RunsOn};
use crate::listing::put_list;
use crate::write::{put_number, put_u8};
use calls::answer::{Answer, RunOn};

// The longest answer: a run of 2,048 tasks with eight tags each, and its frame.
pub const ROOM: usize = 110_621;

// Fixed memory and no heap, by a rule of the project.
#[derive(Drop)]
pub struct Reply {
    bytes: [u8; ROOM],
    len: usize,
    ghost within: { len ≤ 110621 },
}

impl Reply {
    pub fn new() -> Self
        ensures { take result.len result.bytes ≡ [] }
    {
        Reply {
            bytes: [0; ROOM],
            len: 0,
        }
    }

    pub fn bytes(&self) -> &[u8]
        ensures { result.now ≡ take self.now.len self.now.bytes }
    {
        &self.bytes[0..self.len]
    }
}

// All that is to run on a machine.
// (`home` and `live` stay two slices of words, here and below: a rule of the project.)
fn put_run(out: &mut [u8], at: usize, home: &[u64], live: &[u64], run: RunOn) -> usize
    requires words { home_words_lem ≤ length home.now }
    requires flags { live_words ≤ length live.now }
    requires room { at + 110613 ≤ length out.old }
    ensures bytes { Puts (answer_bytes (Runs run.machine.0 run.life.0 run.number.0 (orders (keep (on_machine run.machine.0) (tasks_of home.now live.now))))) out.old out.new at result }
    ensures room { result ≤ at + 110613 }
{
    let end = put_u8(out, at, AnswerKind::Runs as u8);
    let end = put_number(out, end, run.machine.0);
    let end = put_number(out, end, run.life.0);
    let end = put_number(out, end, run.number.0);
    put_list(&RunsOn(run.machine), out, end, home, live)
}

// All tasks of the job of a name. One of more than 64 bytes names none.
fn put_shown(out: &mut [u8], at: usize, home: &[u64], live: &[u64], name: &[u8]) -> usize
    requires words { home_words_lem ≤ length home.now }
    requires flags { live_words ≤ length live.now }
    requires room { at + 110613 ≤ length out.old }
    ensures bytes { Puts (answer_bytes (Shown (lines_of (keep (of_job name.now) (tasks_of home.now live.now))))) out.old out.new at result }
    ensures room { result ≤ at + 110613 }
    ensures long { 64 < length name.now → keep (of_job name.now) (tasks_of home.now live.now) ≡ [] }
{
    let end = put_u8(out, at, AnswerKind::Shown as u8);
    put_list(&OfJob(name), out, end, home, live)
}

fn put_answer(out: &mut [u8], at: usize, home: &[u64], live: &[u64], answer: &Answer) -> usize
    requires words { home_words_lem ≤ length home.now }
    requires flags { live_words ≤ length live.now }
    requires room { at + 110613 ≤ length out.old }
    ensures bytes { (time : ℕ) → Puts (answer_bytes (answer_of answer.now (state_of home.now live.now time))) out.old out.new at result }
    ensures room { result ≤ at + 110613 }
{
    match *answer {
        Answer::TurnedAway(why) => {
            let end = put_u8(out, at, AnswerKind::Refused as u8);
            put_u8(out, end, why.number())
        }
        Answer::Yes => put_u8(out, at, AnswerKind::Done as u8),
        Answer::Run(run) => put_run(out, at, home, live, run),
        Answer::Lines(name) => put_shown(out, at, home, live, name),
    }
}

// The answer, in the frame with that tag. No answer is longer than a reply has room for.
pub fn write(reply: &mut Reply, tag: u32, home: &[u64], live: &[u64], answer: &Answer)
    requires words { home_words_lem ≤ length home.now }
    requires flags { live_words ≤ length live.now }
    ensures bytes { (time : ℕ) → take reply.new.len reply.new.bytes ≡ framed tag (answer_bytes (answer_of answer.now (state_of home.now live.now time))) }
    ensures fits { (time : ℕ) → length (framed tag (answer_bytes (answer_of answer.now (state_of home.now live.now time)))) ≤ reply_room }
{
    let end = put_answer(&mut reply.bytes, 8, home, live, answer);
    let _ = put_number(&mut reply.bytes, 4, tag);
    let _ = put_number(&mut reply.bytes, 0, (end - 4) as u32);
    reply.len = end;
}
