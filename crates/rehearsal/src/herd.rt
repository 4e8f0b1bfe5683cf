// The herd in memory: its kept words, what it has in mind, and how many words it may yet store.
ghost use Rattle.std.specs.Prelude.{◌≡◌, if◌then◌else◌, take};
ghost use Rattle.lines.specs.Overlong.{AreBytes};
ghost use Rattle.device.specs.Follows.{Ended};
ghost use Rattle.serving.specs.Herd.{held_by, herd_code};
ghost use Rattle.rehearsal.specs.Heard.{Heard, memory_of};

use crate::words::Words;
use calls::mind::Mind;
use device::fused::Fused;
use device::kept::Dark;
use lines::line::Line;
use lines::reply::Reply;
use serving::answer::answer;
use serving::wake::wake;
use std::alloc::{AllocError, Global};

// As many stores as there may be where no power fails.
const ENDLESS: u64 = u64::MAX;

#[derive(Drop)]
pub struct Herd {
    words: Fused<Words>,
    mind: Mind,
    line: Line,
    reply: Reply,
    // Is its power to fail.
    fails: bool,
    // How many words were stored.
    stores: u64,
}

impl Herd {
    pub fn new(heap: Global) -> Result<Self, AllocError> {
        Ok(Herd {
            words: Fused::new(Words::new(heap)?, ENDLESS),
            mind: Mind::new(),
            line: Line::new(),
            reply: Reply::new(),
            fails: false,
            stores: 0,
        })
    }

    // Its power fails after so many more stores.
    pub fn fail_after(&mut self, stores: u64) {
        self.words.set_left(stores);
        self.fails = true;
    }

    // Its power does not fail.
    pub fn stay_up(&mut self) {
        self.words.set_left(ENDLESS);
        self.fails = false;
    }

    // How many words were stored since that was last asked.
    pub fn take_stores(&mut self) -> u64 {
        let stores = self.stores;
        self.stores = 0;
        stores
    }

    pub fn mind(&self) -> &Mind {
        &self.mind
    }

    // The answer to the last line.
    pub fn reply(&self) -> &[u8]
        ensures { result.now ≡ take self.now.reply.len self.now.reply.bytes }
    {
        self.reply.bytes()
    }

    // Where its power is not to fail, it may store as much again.
    fn go_on(&mut self)
        ensures words { self.new.words.kept ≡ self.old.words.kept }
        ensures mind { self.new.mind ≡ self.old.mind }
        ensures reply { self.new.reply ≡ self.old.reply }
        ensures left { self.new.words.left ≡ (if self.old.fails then self.old.words.left else 18446744073709551615) }
    {
        if !self.fails {
            self.words.set_left(ENDLESS);
        }
    }

    // Its power is back, and it wakes.
    fn come_back(&mut self)
        ensures words { self.new.words.kept ≡ self.old.words.kept }
        ensures mind { Ended herd_code.wakes (memory_of self.old.words) (held_by self.new.mind) (memory_of self.old.words) }
    {
        let _ = wake(&self.words, &mut self.mind);
        self.words.set_left(ENDLESS);
        self.fails = false;
    }

    // A line comes, and its answer is the reply; or the power fails, there is no answer, and the herd wakes.
    pub fn hear(&mut self, line: &[u8]) -> Result<(), Dark>
        ensures { AreBytes line.now → Heard line.now (held_by self.old.mind) (memory_of self.old.words) result (take self.new.reply.len self.new.reply.bytes) (held_by self.new.mind) (memory_of self.new.words) }
    {
        self.line.set(line);
        let before = self.words.left();
        let done = answer(&mut self.words, &mut self.mind, &self.line, &mut self.reply);
        let stored = before.saturating_sub(self.words.left());
        self.stores = self.stores.saturating_add(stored);
        match done {
            Ok(()) => {
                self.go_on();
                Ok(())
            }
            Err(dark) => {
                self.come_back();
                Err(dark)
            }
        }
    }
}
