// Answers and deeds in words.
use agents::order::Deed;
use std::alloc::AllocError;
use wire::reply::{Order, Phase, Reply, Shown};

// Why a call is turned away, by its number.
fn why(number: u8) -> &'static str {
    match number {
        1 => "out of range, or no call",
        2 => "no such job or machine",
        3 => "that machine is there",
        5 => "an older life, or no higher number",
        8 => "no more room",
        10 => "no time was told",
        12 => "not built yet",
        _ => "for no reason that is known",
    }
}

pub fn phase(phase: Phase) -> &'static str {
    match phase {
        Phase::Waiting => "waiting",
        Phase::Told => "told",
        Phase::Ready => "ready",
        Phase::Ending => "ending",
    }
}

fn put_orders(out: &mut String, orders: &[Order]) -> Result<(), AllocError> {
    if orders.is_empty() {
        return out.push_str("nothing");
    }
    for (i, order) in orders.iter().enumerate() {
        let mark = if i == 0 { "" } else { ", " };
        write!(out, "{mark}{}", order.task)?;
    }
    Ok(())
}

// An answer, or that there was none.
pub fn put_answer(out: &mut String, reply: &Option<Reply>) -> Result<(), AllocError> {
    match reply {
        None => out.push_str("the power failed, and the herd woke"),
        Some(Reply::Yes) => out.push_str("yes"),
        Some(Reply::TurnedAway(number)) => {
            write!(out, "turned away by {number}, {}", why(*number))
        }
        Some(Reply::Run(run)) => {
            out.push_str("run ")?;
            put_orders(out, run.orders.as_slice())
        }
        Some(Reply::Lines(lines)) => write!(out, "{} tasks", lines.len()),
    }
}

// A task that is shown, in a line of its own.
pub fn put_shown(out: &mut String, shown: Shown) -> Result<(), AllocError> {
    write!(
        out,
        "  task {}, version {}: {}",
        shown.task,
        shown.version.0,
        phase(shown.phase)
    )?;
    if shown.phase != Phase::Waiting {
        write!(out, " on machine {}", shown.machine.0)?;
    }
    out.push_str("\n")
}

// What is stopped, then what is started.
pub fn put_deeds(out: &mut String, deeds: &[Deed]) -> Result<(), AllocError> {
    if deeds.is_empty() {
        return out.push_str("nothing to do");
    }
    for (i, deed) in deeds.iter().enumerate() {
        let mark = if i == 0 { "" } else { ", " };
        match deed {
            Deed::Stop(task) => write!(out, "{mark}stop {task}")?,
            Deed::Start(order) => write!(out, "{mark}start {}", order.task)?,
        }
    }
    Ok(())
}

// A frame in hexadecimal, in a line of its own.
pub fn put_frame(out: &mut String, word: &str, frame: &[u8]) -> Result<(), AllocError> {
    write!(out, "  {word} ")?;
    for byte in frame {
        write!(out, "{byte:02x}")?;
    }
    out.push_str("\n")
}
