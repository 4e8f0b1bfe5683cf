// What people and the clock say to the herd, as calls.
use crate::mosts::Mosts;
use crate::said::{put_answer, put_shown};
use crate::stage::Stage;
use calls::call::{Added, Call, Likeness, Wanted};
use script::bad::Bad;
use script::command::{Adding, Saying, Setting};
use std::alloc::AllocError;
use wire::call::call_frame;
use wire::reply::Reply;
use wire::unwritten::Unwritten;

fn wanted<'a>(job: &'a Setting<'a>) -> Call<'a> {
    Call::Set(Wanted {
        name: job.name.as_bytes(),
        like: Likeness {
            image: job.image,
            cpu: job.cpu,
            mem: job.mem,
            tags: job.tags.as_slice(),
            apart: job.apart,
        },
        count: job.count,
        least: job.least,
        most: job.most,
    })
}

fn added(machine: &Adding) -> Call<'_> {
    Call::Add(Added {
        machine: machine.machine,
        cpu: machine.cpu,
        mem: machine.mem,
        tags: machine.tags.as_slice(),
    })
}

fn call<'a>(saying: &'a Saying<'a>) -> Call<'a> {
    match saying {
        Saying::Set(job) => wanted(job),
        Saying::End(name) => Call::End(name.as_bytes()),
        Saying::Add(machine) => added(machine),
        Saying::Close(machine) => Call::Close(*machine),
        Saying::Reopen(machine) => Call::Reopen(*machine),
        Saying::Forget(machine) => Call::Forget(*machine),
        Saying::Time(ms) => Call::Time(*ms),
        Saying::Show(name) => Call::Show(name.as_bytes()),
    }
}

// Which call it is that is answered.
fn put_call(out: &mut String, saying: &Saying) -> Result<(), AllocError> {
    match saying {
        Saying::Set(job) => write!(out, "set {}: ", job.name),
        Saying::End(name) => write!(out, "end {name}: "),
        Saying::Add(machine) => write!(out, "add {}: ", machine.machine.0),
        Saying::Close(machine) => write!(out, "close {}: ", machine.0),
        Saying::Reopen(machine) => write!(out, "reopen {}: ", machine.0),
        Saying::Forget(machine) => write!(out, "forget {}: ", machine.0),
        Saying::Time(ms) => write!(out, "time {ms}: "),
        Saying::Show(name) => write!(out, "show {name}: "),
    }
}

// Was it, or may it have been, done.
fn is_taken(reply: &Option<Reply>) -> bool {
    !matches!(reply, Some(Reply::TurnedAway(_)))
}

impl Stage {
    // A call, with the next tag.
    pub(crate) fn call(&mut self, call: &Call) -> Result<Option<Reply>, AllocError> {
        self.tag = self.tag.wrapping_add(1);
        match call_frame(self.heap, self.tag, call) {
            Ok(frame) => self.ask(frame.as_slice()),
            // No word of a script is so long.
            Err(Unwritten::TooLong) => Ok(None),
            Err(Unwritten::NoMemory) => Err(AllocError),
        }
    }

    // The time, which goes on from here if it was answered by yes.
    pub(crate) fn tell(&mut self, ms: u64) -> Result<Option<Reply>, AllocError> {
        let reply = self.call(&Call::Time(ms))?;
        if let Some(Reply::Yes) = reply {
            self.clock = ms;
        }
        Ok(reply)
    }

    // What happens before the call: a machine that comes is played, one that is forgotten is switched off.
    fn prepare(&mut self, saying: &Saying) -> Result<(), Bad> {
        match saying {
            Saying::Add(machine) => {
                let _ = self.machines.name(self.heap, machine.machine)?;
            }
            Saying::Forget(machine) => {
                let _ = self.machines.fall(self.heap, *machine);
            }
            _ => {}
        }
        Ok(())
    }

    fn reply_to(&mut self, saying: &Saying) -> Result<Option<Reply>, AllocError> {
        match saying {
            Saying::Time(ms) => self.tell(*ms),
            _ => self.call(&call(saying)),
        }
    }

    pub(crate) fn say(&mut self, saying: &Saying) -> Result<(), Bad> {
        self.prepare(saying)?;
        let reply = self.reply_to(saying)?;
        if let Saying::Set(job) = saying {
            if is_taken(&reply) {
                self.mosts.note(self.heap, job.name, job.most)?;
            }
        }
        put_call(&mut self.said, saying)?;
        put_answer(&mut self.said, &reply)?;
        self.said.push_str("\n")?;
        if let Some(Reply::Lines(lines)) = &reply {
            for shown in lines {
                put_shown(&mut self.said, *shown)?;
            }
        }
        Ok(())
    }
}
