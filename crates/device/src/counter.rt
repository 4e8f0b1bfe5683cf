// The smallest service: how one is put together, and what the tests run.
ghost use Rattle.std.specs.Prelude.{◌≡◌};
ghost use Rattle.model.specs.Memory.{asleep, awake};
ghost use Rattle.model.specs.Right.{RightBy, RunsRight, RunsFit};
ghost use Rattle.device.specs.Counter.{meant, code, service, keeps, says, mind_of, Tells, Awake};
ghost use Rattle.device.specs.Follows.{Ended, FollowsTo};
ghost use Rattle.device.specs.Service.{CallBudget};
ghost use Rattle.device.specs.Told.{GoesOn, DoesSo, Runs};

use crate::halves::{finish, wake};
use crate::kept::{Dark, Kept};

#[derive(Clone, Copy, Drop)]
pub enum Ask {
    Add(u64),
    Show,
}

// Its mind: the two home words, sum and count, and how often it was asked.
#[derive(Drop)]
pub struct Counter {
    home: [u64; 2],
    asked: u64,
}

#[derive(Clone, Copy, Drop)]
struct Acted {
    reply: u64,
    changed: bool,
}

impl Counter {
    // Wakes from the kept words.
    pub fn wake<K: Kept>(words: &K) -> Self
        ensures follows { Ended code.wakes (K.word words.now) (mind_of result.home result.asked) (K.word words.now) }
        ensures runs { Runs code (asleep (K.word words.now)) → Runs code (awake (mind_of result.home result.asked) (K.word words.now)) }
    {
        let mut home = [0, 0];
        wake(words, &mut home);
        Counter { home, asked: 0 }
    }

    // Answers in memory.
    fn act(&mut self, ask: Ask) -> Acted
        ensures says { says ask (mind_of self.old.home self.old.asked) ≡ record { reply = result.reply; mind = mind_of self.new.home self.new.asked } }
        ensures keeps { keeps ask (mind_of self.old.home self.old.asked) ≡ result.changed }
    {
        match ask {
            Ask::Add(n) => {
                self.home = [self.home[0].wrapping_add(n), self.home[1].wrapping_add(1)];
                Acted {
                    reply: self.home[0],
                    changed: true,
                }
            }
            Ask::Show => {
                self.asked = self.asked.wrapping_add(1);
                Acted {
                    reply: self.home[0],
                    changed: false,
                }
            }
        }
    }

    // Answers, and keeps what changed; or is cut in that.
    pub fn answer<K: Kept>(&mut self, words: &mut K, ask: Ask) -> Result<u64, Dark>
        ensures follows { FollowsTo (code.does ask (mind_of self.old.home self.old.asked)) (K.word words.old) result (λ n. record { reply = n; mind = mind_of self.new.home self.new.asked }) (K.word words.new) }
        ensures runs { GoesOn code ask (mind_of self.old.home self.old.asked) (K.word words.old) result (λ n. record { reply = n; mind = mind_of self.new.home self.new.asked }) (K.word words.new) }
        ensures tells { DoesSo meant code Tells Awake ask (mind_of self.old.home self.old.asked) (K.word words.old) result (λ n. record { reply = n; mind = mind_of self.new.home self.new.asked }) (K.word words.new) }
        ensures budget { CallBudget service ask (mind_of self.old.home self.old.asked) (K.word words.old) }
    {
        let acted = self.act(ask);
        finish(words, &self.home, acted.changed, acted.reply)
    }
}

// Its code is right for what is meant.
pub fn right() -> u8
    ensures { RightBy meant code Tells Awake }
{
    0
}

// And so is every run of it, within the words that there are.
pub fn runs_right() -> u8
    ensures { (RunsRight meant code) × (RunsFit code) }
{
    0
}
