// All that a script plays with, and how frames go to the herd and to machines.
use crate::herd::Herd;
use crate::letter::{About, Letter};
use crate::machines::Machines;
use crate::mosts::Mosts;
use crate::post::{Drawn, Post};
use crate::said::{put_answer, put_deeds, put_frame};
use agents::agent::{Agent, Passed};
use agents::head::Head;
use calls::answer::RunOn;
use device::kept::Dark;
use jobs::ids::MachineId;
use script::command::Lines;
use std::alloc::{AllocError, Global};
use wire::read::read_reply;
use wire::reply::Reply;
use wire::unread::Unread;

#[derive(Drop)]
pub struct Stage {
    pub(crate) heap: Global,
    pub(crate) herd: Herd,
    pub(crate) machines: Machines,
    pub(crate) post: Post,
    pub(crate) mosts: Mosts,
    // What this command has said so far.
    pub(crate) said: String,
    // Are frames shown.
    pub(crate) hex: bool,
    // The tag of the last call.
    pub(crate) tag: u32,
    // The time that was last told.
    pub(crate) clock: u64,
    // How often the power failed.
    pub(crate) darks: u64,
    // Did a check fail in this line.
    pub(crate) failed: bool,
}

// Whether what is done is said.
#[derive(Clone, Copy, Debug, PartialEq, Eq)]
pub(crate) enum Voice {
    Loud,
    Silent,
}

impl Stage {
    pub fn new(heap: Global) -> Result<Self, AllocError> {
        Ok(Stage {
            heap,
            herd: Herd::new(heap)?,
            machines: Machines::new(heap),
            post: Post::new(heap),
            mosts: Mosts::new(heap),
            said: String::new(heap),
            hex: false,
            tag: 0,
            clock: 0,
            darks: 0,
            failed: false,
        })
    }

    // A frame goes to the herd; no answer where the power fails.
    pub(crate) fn ask(&mut self, frame: &[u8]) -> Result<Option<Reply>, AllocError> {
        if self.hex {
            put_frame(&mut self.said, "in", frame)?;
        }
        if let Err(Dark) = self.herd.hear(frame) {
            self.darks = self.darks.saturating_add(1);
            return Ok(None);
        }
        if self.hex {
            put_frame(&mut self.said, "out", self.herd.reply())?;
        }
        match read_reply(self.heap, self.herd.reply()) {
            Ok(answered) => Ok(Some(answered.reply)),
            Err(Unread::NoMemory) => Err(AllocError),
            Err(Unread::NoAnswer) => Ok(None),
        }
    }
}

// What is known of an answer that goes back to the machine that reported.
fn about(machine: MachineId, reply: &Reply) -> Option<About> {
    match reply {
        Reply::Run(run) => {
            let RunOn {
                machine,
                life,
                number,
            } = run.on;
            Some(About::Run(Head {
                machine,
                life,
                number,
            }))
        }
        Reply::TurnedAway(number) => Some(About::Refused(machine, *number)),
        Reply::Yes | Reply::Lines(_) => None,
    }
}

impl Stage {
    // A report reaches the herd, and what that answers goes on the lines.
    fn hand_report(&mut self, head: Head, letter: Letter, voice: Voice) -> Result<(), AllocError> {
        let reply = self.ask(letter.frame.as_slice())?;
        if voice == Voice::Loud {
            write!(self.said, "{}: ", letter.about)?;
            put_answer(&mut self.said, &reply)?;
            self.said.push_str("\n")?;
        }
        if let Some(reply) = &reply {
            if let Some(about) = about(head.machine, reply) {
                let frame = Vec::from_slice(self.heap, self.herd.reply())?;
                self.post.put(Letter { about, frame })?;
            }
        }
        Ok(())
    }

    // An answer reaches its machine.
    fn hand_answer(
        &mut self,
        machine: MachineId,
        letter: Letter,
        voice: Voice,
    ) -> Result<(), AllocError> {
        let Some(agent) = self.machines.agent_mut(machine) else {
            return Ok(());
        };
        let heard = agent.hear(self.heap, letter.frame.as_slice());
        if let Err(Passed::NoMemory) = heard {
            return Err(AllocError);
        }
        if voice == Voice::Loud {
            write!(self.said, "{}: ", letter.about)?;
            match heard {
                Ok(deeds) => put_deeds(&mut self.said, deeds.as_slice())?,
                Err(_) => self.said.push_str("passed over")?,
            }
            self.said.push_str("\n")?;
        }
        Ok(())
    }

    // A letter reaches whom it is to.
    pub(crate) fn hand(&mut self, letter: Letter, voice: Voice) -> Result<(), AllocError> {
        match letter.about {
            About::Report(head) => self.hand_report(head, letter, voice),
            About::Run(head) => self.hand_answer(head.machine, letter, voice),
            About::Refused(machine, _) => self.hand_answer(machine, letter, voice),
        }
    }

    fn draw(&mut self, voice: Voice) -> Result<(), AllocError> {
        match self.post.draw(self.heap)? {
            Drawn::Delivered(letter) => self.hand(letter, voice)?,
            Drawn::Lost(letter) => {
                if voice == Voice::Loud {
                    writeln!(self.said, "lost: {}", letter.about)?;
                }
            }
            Drawn::Nothing => {}
        }
        Ok(())
    }

    // Lines deliver. Each report is answered once, and an answer by nothing, so twice as many deliveries as letters are enough.
    pub(crate) fn deliver(&mut self, voice: Voice) -> Result<(), AllocError> {
        let letters = self.post.letters().len();
        match self.post.lines() {
            Lines::Good => {
                for _ in 0..letters.saturating_mul(2) {
                    if let Some(letter) = self.post.take(0) {
                        self.hand(letter, voice)?;
                    }
                }
            }
            Lines::Bad => {
                for _ in 0..letters.saturating_mul(3) {
                    self.draw(voice)?;
                }
            }
        }
        Ok(())
    }
}
