// Lines in, lines out. Whatever can't be done is said on standard error, and the agent goes on.
use crate::line::Line;
use crate::skipped::Skipped;
use agents::agent::Agent;
use agents::order::Deed;
use agents::text::{Said, bytes_of, meaning, push_hex};
use jobs::ids::{Life, TaskId};
use lines::input::each_piece;
use std::alloc::{AllocError, Global};
use std::io;
use std::io::Write;
use together::agent as moves;

const NEWLINE: u8 = 10;

fn send_text(heap: Global, bytes: &[u8]) -> Result<Vec<u8>, AllocError> {
    let mut text = Vec::new(heap);
    text.extend_from_slice(b"send ")?;
    push_hex(&mut text, bytes)?;
    text.extend_from_slice(b"\n")?;
    Ok(text)
}

// A report goes out in one write.
fn report(rt: &HostRuntime, agent: &mut Agent) -> Result<(), Skipped> {
    let bytes = moves::report(agent, rt.alloc())?;
    let text = send_text(rt.alloc(), bytes.as_slice()).map_err(|_| Skipped::Text)?;
    rt.stdout().write_all(text.as_slice())?;
    Ok(())
}

fn carry_out(rt: &HostRuntime, deeds: &[Deed]) -> io::Result<()> {
    for deed in deeds {
        println!(rt; "{deed}")?;
    }
    Ok(())
}

fn answer(rt: &HostRuntime, agent: &mut Agent, digits: &[u8]) -> Result<(), Skipped> {
    let bytes = bytes_of(rt.alloc(), digits)?;
    let deeds = moves::hear(agent, rt.alloc(), bytes.as_slice())?;
    carry_out(rt, deeds.as_slice())?;
    Ok(())
}

// What died is started again, if it is ordered.
fn dies(rt: &HostRuntime, agent: &mut Agent, task: TaskId) -> Result<(), Skipped> {
    moves::die(agent, task).map_err(|why| Skipped::Dies(task, why))?;
    let deeds = moves::start(agent, rt.alloc()).map_err(|_| Skipped::Start)?;
    carry_out(rt, deeds.as_slice())?;
    Ok(())
}

fn follow(rt: &HostRuntime, agent: &mut Agent, line: &Line) -> Result<(), Skipped> {
    match meaning(line.text()?).ok_or(Skipped::Meaningless)? {
        Said::Report => report(rt, agent),
        Said::Answer(digits) => answer(rt, agent, digits),
        Said::Ready(task) => {
            moves::mark(agent, task, true).map_err(|why| Skipped::Ready(task, why))
        }
        Said::Dies(task) => dies(rt, agent, task),
    }
}

// The line of text is at its end.
fn finish(rt: &HostRuntime, agent: &mut Agent, line: &mut Line) -> io::Result<()> {
    match follow(rt, agent, line) {
        Ok(()) => {}
        Err(Skipped::Lines(e)) => return Err(e),
        Err(why) => {
            let _ = eprintln!(rt; "agent: {why}");
        }
    }
    line.restart(rt.alloc());
    Ok(())
}

// What came in one read.
fn feed(rt: &HostRuntime, agent: &mut Agent, line: &mut Line, piece: &[u8]) -> io::Result<()> {
    for c in piece {
        if *c == NEWLINE {
            finish(rt, agent, line)?;
        } else {
            line.push(*c);
        }
    }
    Ok(())
}

// Says the life, then follows every line to the end of standard input; the last one need not be ended.
pub fn serve(rt: &HostRuntime, agent: &mut Agent, life: Life) -> io::Result<()> {
    println!(rt; "up {life}")?;
    let mut line = Line::new(rt.alloc());
    each_piece(&mut rt.stdin(), |piece| feed(rt, agent, &mut line, piece))?;
    if line.is_begun() {
        finish(rt, agent, &mut line)?;
    }
    Ok(())
}
