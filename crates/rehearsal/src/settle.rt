// Rounds until the herd is at rest.
use crate::rest::{enough, is_at_rest, snapshot, without_room};
use crate::stage::{Stage, Voice};
use jobs::ids::MachineId;
use jobs::rows::MACHINES;
use std::alloc::AllocError;
use wire::reply::Reply;

// As long as a machine is present after it was heard.
const LATELY: u64 = 30_000;

// Why nothing is promised.
#[derive(Drop)]
enum Unpromised {
    NoMachine,
    NotPlayed(MachineId),
    Slow,
    NotTold,
    NoRoom(String),
}

fn put_why(out: &mut String, why: &Unpromised) -> Result<(), AllocError> {
    match why {
        Unpromised::NoMachine => out.push_str("the herd has no machine"),
        Unpromised::NotPlayed(machine) => write!(out, "machine {} is not played", machine.0),
        Unpromised::Slow => write!(out, "the time goes on by more than {LATELY} ms"),
        Unpromised::NotTold => out.push_str("the time was not told"),
        Unpromised::NoRoom(name) => write!(out, "no machine takes one more task of {name}"),
    }
}

impl Stage {
    // The first machine that the herd has and nobody plays.
    fn unplayed(&self) -> Option<MachineId> {
        for r in 0..MACHINES.in_use(&self.herd.mind().home) {
            let row = MACHINES.row(&self.herd.mind().home, r);
            if !row.is_hole() && self.machines.place(row.num()).is_none() {
                return Some(row.num());
            }
        }
        None
    }

    // What is asked of machines and times, before any round.
    fn asked(&self, ms: u64, told: bool) -> Option<Unpromised> {
        let home = &self.herd.mind().home;
        if MACHINES.count(home) == 0 {
            return Some(Unpromised::NoMachine);
        }
        if let Some(machine) = self.unplayed() {
            return Some(Unpromised::NotPlayed(machine));
        }
        if ms > LATELY {
            return Some(Unpromised::Slow);
        }
        if told {
            None
        } else {
            Some(Unpromised::NotTold)
        }
    }

    fn tell_next(&mut self, ms: u64) -> Result<bool, AllocError> {
        let time = self.clock.saturating_add(ms);
        Ok(matches!(self.tell(time)?, Some(Reply::Yes)))
    }

    // Lines work and the herd stays up from here on; what is on the lines arrives, a time is told, and all that runs is ready.
    fn calm(&mut self, ms: u64) -> Result<bool, AllocError> {
        self.post.set_lines(script::command::Lines::Good);
        self.herd.stay_up();
        let told = self.tell_next(ms)?;
        self.deliver(Voice::Silent)?;
        self.machines.ready_all();
        Ok(told)
    }

    // One round; why nothing is promised any more, if that is so.
    fn calm_round(
        &mut self,
        ms: u64,
        why: Option<Unpromised>,
    ) -> Result<Option<Unpromised>, AllocError> {
        self.report_all()?;
        self.deliver(Voice::Silent)?;
        self.machines.ready_all();
        let told = self.tell_next(ms)?;
        if why.is_some() || is_at_rest(self.herd.mind()) {
            return Ok(why);
        }
        if !told {
            return Ok(Some(Unpromised::NotTold));
        }
        let lacking = without_room(self.heap, self.herd.mind())?;
        Ok(lacking.map(Unpromised::NoRoom))
    }

    fn put_settled(
        &mut self,
        ms: u64,
        rounds: usize,
        promised: usize,
        why: &Option<Unpromised>,
    ) -> Result<(), AllocError> {
        let rest = is_at_rest(self.herd.mind());
        let word = match (rest, why) {
            (true, _) => "at rest",
            (false, Some(_)) => "not at rest",
            (false, None) => "NOT AT REST",
        };
        write!(self.said, "settle {ms}: {word} after {rounds} rounds, ")?;
        match why {
            None => write!(self.said, "{promised} promised")?,
            Some(why) => {
                self.said.push_str("nothing promised: ")?;
                put_why(&mut self.said, why)?;
            }
        }
        if !rest && why.is_none() {
            self.failed = true;
        }
        self.said.push_str("\n")
    }

    pub(crate) fn settle(&mut self, ms: u64) -> Result<(), AllocError> {
        let told = self.calm(ms)?;
        let promised = enough(self.herd.mind());
        let mut why = self.asked(ms, told);
        let mut rounds = 0usize;
        for _ in 0..promised {
            let before = snapshot(self.heap, self.herd.mind())?;
            let hopeless = why.is_some();
            why = self.calm_round(ms, why)?;
            rounds = rounds.saturating_add(1);
            let after = snapshot(self.heap, self.herd.mind())?;
            if is_at_rest(self.herd.mind()) || hopeless && before.as_slice() == after.as_slice() {
                break;
            }
        }
        self.put_settled(ms, rounds, promised, &why)
    }
}
