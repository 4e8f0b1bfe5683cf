// Rounds: each machine reports, lines deliver, all that runs is ready, and the time goes on.
use crate::machines::Machines;
use crate::said::put_answer;
use crate::stage::{Stage, Voice};
use crate::tally::count_phases;
use agents::agent::Agent;
use agents::order::Seen;
use jobs::ids::TaskId;
use std::alloc::AllocError;
use wire::reply::Reply;

impl Stage {
    // Each machine reports.
    pub(crate) fn report_all(&mut self) -> Result<(), AllocError> {
        for place in 0..self.machines.agents().len() {
            self.report(place, Voice::Silent)?;
        }
        Ok(())
    }

    fn put_round(&mut self, k: u16, time: u64, reply: &Option<Reply>) -> Result<(), AllocError> {
        let n = count_phases(self.herd.mind());
        write!(self.said, "round {k}, time {time}: ")?;
        put_answer(&mut self.said, reply)?;
        write!(self.said, ": {} waiting, {} told, ", n.waiting, n.told)?;
        write!(self.said, "{} ready, {} ending; ", n.ready, n.ending)?;
        let (run, ready) = (self.machines.count_running(), self.machines.count_ready());
        writeln!(self.said, "{run} run, {ready} ready")
    }

    fn round(&mut self, k: u16, ms: u64) -> Result<(), AllocError> {
        self.report_all()?;
        let before = self.darks;
        self.deliver(Voice::Silent)?;
        for _ in before..self.darks {
            writeln!(self.said, "round {k}: the power failed, and the herd woke")?;
        }
        self.machines.ready_all();
        let time = self.clock.saturating_add(ms);
        let reply = self.tell(time)?;
        self.put_round(k, time, &reply)
    }

    pub(crate) fn rounds(&mut self, times: u16, ms: u64) -> Result<(), AllocError> {
        for k in 0..times {
            self.round(k + 1, ms)?;
        }
        Ok(())
    }
}
