// `rehearse`: plays a script from standard input with a herd and up to eight machines in memory, and prints what comes of it.
#![tactic(auto)]

mod trouble;

use lines::input::each_piece;
use rehearsal::rehearsal::Rehearsal;
use std::io;
use std::io::{ErrorKind, Write};
use std::process::ExitCode;
use trouble::Trouble;

// The script as it comes: what is played with, and the line so far.
#[derive(Drop)]
struct Reading {
    rehearsal: Rehearsal,
    line: Vec<u8>,
}

impl Reading {
    // The line is at its end: it is played, and what that says goes out in one write.
    fn finish(&mut self, rt: &HostRuntime) -> Result<(), Trouble> {
        let said = self.rehearsal.play(self.line.as_slice())?;
        rt.stdout().write_all(said.as_bytes())?;
        self.line.clear();
        Ok(())
    }

    // What came in one read.
    fn feed(&mut self, rt: &HostRuntime, piece: &[u8]) -> Result<(), Trouble> {
        for c in piece {
            if *c == b'\n' {
                self.finish(rt)?;
            } else {
                self.line.push(*c)?;
            }
        }
        Ok(())
    }
}

// Plays every line to the end of standard input, of which the last need not be ended; whether all went well.
fn run(rt: &HostRuntime) -> Result<bool, Trouble> {
    let mut reading = Reading {
        rehearsal: Rehearsal::new(rt.alloc())?,
        line: Vec::new(rt.alloc()),
    };
    // Why it stopped, where that is no error of reading: `each_piece` hands on none but those, and any stops it.
    let mut fed = Ok(());
    let read = each_piece(&mut rt.stdin(), |piece| {
        fed = reading.feed(rt, piece);
        fed.map_err(|_| io::Error::from(ErrorKind::Other))
    });
    fed?;
    read?;
    if !reading.line.is_empty() {
        reading.finish(rt)?;
    }
    let end = reading.rehearsal.end()?;
    rt.stdout().write_all(end.as_bytes())?;
    Ok(reading.rehearsal.is_well())
}

fn main(rt: HostRuntime) -> ExitCode {
    match run(&rt) {
        Ok(true) => ExitCode::SUCCESS,
        Ok(false) => ExitCode::FAILURE,
        Err(why) => {
            let _ = eprintln!(rt; "rehearse: {why}");
            ExitCode::FAILURE
        }
    }
}
