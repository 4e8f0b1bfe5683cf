// An agent's moves.
// (Each says that the machine stays, since its contract is the move's: no type could say it of a move.)
ghost use Rattle.std.specs.Prelude.{◌≡◌, ◌+◌};
ghost use Rattle.model.specs.Answers.{read_answer_lem};
ghost use Rattle.model.specs.Lines.{call_in};
ghost use Rattle.model.specs.World as w;
ghost use Rattle.agents.specs.Steps.{Becomes, Dies, Hears, Reports, Starts, agent_of, machine_of, run_of};

use crate::agent::{Agent, NotRunning, Passed, Unsent};
use crate::head::Head;
use crate::heard::Run;
use crate::order::{Deed, Seen};
use crate::read::read_answer;
use crate::report::report_bytes;
use crate::running::place;
use crate::turn::{Turn, obeyed, restarted};
use jobs::ids::{LAST, Life, MachineId, TaskId};
use std::alloc::{AllocError, Global};
use wire::frame::unframed;

impl Agent {
    // Come up: nothing is ordered, nothing runs.
    pub fn new(heap: Global, machine: MachineId, life: Life) -> Self
        ensures agent { (a : w.Agent) → life.0 ≡ a.life + 1 → agent_of result ≡ w.risen a }
        ensures machine { machine_of result ≡ machine.0 }
    {
        Agent {
            head: Head::new(machine, life),
            orders: Vec::new(heap),
            seens: Vec::new(heap),
        }
    }

    // The next report, in its frame.
    pub fn report(&mut self, heap: Global) -> Result<Vec<u8>, Unsent>
        ensures agent { Reports (machine_of self.old) (agent_of self.old) result (agent_of self.new) }
        ensures machine { machine_of self.new ≡ machine_of self.old }
    {
        if self.head.number.0 >= LAST {
            return Err(Unsent::Last);
        }
        let head = self.head.next();
        let bytes = report_bytes(heap, head, self.seens.as_slice(), self.orders.as_slice())?;
        self.head = head;
        Ok(bytes)
    }

    // What is ordered and doesn't run is started.
    pub fn start(&mut self, heap: Global) -> Result<Vec<Deed>, AllocError>
        ensures agent { Starts (agent_of self.old) result (agent_of self.new) }
        ensures machine { machine_of self.new ≡ machine_of self.old }
    {
        let Turn { seens, deeds } = restarted(heap, self.seens.as_slice(), self.orders.as_slice())?;
        self.seens = seens;
        Ok(deeds)
    }

    fn obey(&mut self, heap: Global, run: Run) -> Result<Vec<Deed>, Passed>
        ensures agent { Hears (machine_of self.old) (run_of run) (agent_of self.old) result (agent_of self.new) }
        ensures machine { machine_of self.new ≡ machine_of self.old }
    {
        if !self.head.same(run.head) {
            return Err(Passed::NotLast);
        }
        let Run { orders, .. } = run;
        let Turn { seens, deeds } = obeyed(heap, self.seens.as_slice(), orders.as_slice())?;
        self.orders = orders;
        self.seens = seens;
        Ok(deeds)
    }

    // Bytes came: they are obeyed if they are the answer to the last report, and else passed over.
    pub fn hear(&mut self, heap: Global, line: &[u8]) -> Result<Vec<Deed>, Passed>
        ensures agent { Hears (machine_of self.old) (read_answer_lem (call_in line.now)) (agent_of self.old) result (agent_of self.new) }
        ensures machine { machine_of self.new ≡ machine_of self.old }
    {
        let run = read_answer(heap, unframed(line))?;
        self.obey(heap, run)
    }

    // What runs becomes ready, or is so no more.
    pub fn mark(&mut self, task: TaskId, ready: bool) -> Result<(), NotRunning>
        ensures agent { Becomes task.0 ready (agent_of self.old) result (agent_of self.new) }
        ensures machine { machine_of self.new ≡ machine_of self.old }
    {
        let i = place(self.seens.as_slice(), task).ok_or(NotRunning(task))?;
        self.seens[i] = Seen { task, ready };
        Ok(())
    }

    // What runs dies.
    pub fn die(&mut self, task: TaskId) -> Result<(), NotRunning>
        ensures agent { Dies task.0 (agent_of self.old) result (agent_of self.new) }
        ensures machine { machine_of self.new ≡ machine_of self.old }
    {
        let i = place(self.seens.as_slice(), task).ok_or(NotRunning(task))?;
        let _ = self.seens.remove(i);
        Ok(())
    }
}
