// The moves of an agent, as the program makes them: each is a move of the world as it really runs, or several, or none.
ghost use Rattle.std.specs.Prelude.{◌≡◌, ◌+◌, ◌<◌};
ghost use Rattle.model.specs.Answers.{read_answer_lem};
ghost use Rattle.model.specs.Lines.{call_in};
ghost use Rattle.model.specs.World as w;
ghost use Rattle.agents.specs.Steps.{Becomes, Dies, Hears, Reports, Starts, agent_of, machine_of};
ghost use Rattle.together.specs.Moves.{AgentHears, AgentReports, ComesUp, GoesOn};

use agents::agent::{Agent, NotRunning, Passed, Unsent};
use agents::head::Head;
use agents::order::Deed;
use jobs::ids::{Life, MachineId, TaskId};
use std::alloc::{AllocError, Global};

// The numbers of a head are of as many bytes as a report has for them: that is said here, where their types are at hand.
fn in_range(head: Head)
    ensures machine { head.machine.0 < 65536 }
    ensures life { head.life.0 < 18446744073709551616 }
    ensures number { head.number.0 < 18446744073709551616 }
{}

// It comes up with a life: the one after that in its file.
pub fn come_up(heap: Global, machine: MachineId, life: Life) -> Agent
    ensures agent { (a : w.Agent) → life.0 ≡ a.life + 1 → agent_of result ≡ w.risen a }
    ensures machine { machine_of result ≡ machine.0 }
    ensures moves { ComesUp machine.0 life.0 (agent_of result) }
{
    in_range(Head::new(machine, life));
    Agent::new(heap, machine, life)
}

// The next report, in its frame.
pub fn report(agent: &mut Agent, heap: Global) -> Result<Vec<u8>, Unsent>
    ensures agent { Reports (machine_of agent.old) (agent_of agent.old) result (agent_of agent.new) }
    ensures machine { machine_of agent.new ≡ machine_of agent.old }
    ensures moves { AgentReports (machine_of agent.old) (agent_of agent.old) result (agent_of agent.new) }
{
    let sent = agent.report(heap);
    in_range(agent.head());
    sent
}

// Bytes came: they are obeyed if they are the answer to the last report, and else passed over.
pub fn hear(agent: &mut Agent, heap: Global, line: &[u8]) -> Result<Vec<Deed>, Passed>
    ensures agent { Hears (machine_of agent.old) (read_answer_lem (call_in line.now)) (agent_of agent.old) result (agent_of agent.new) }
    ensures machine { machine_of agent.new ≡ machine_of agent.old }
    ensures moves { AgentHears (machine_of agent.old) line.now (agent_of agent.old) (agent_of agent.new) }
{
    agent.hear(heap, line)
}

// What is ordered and doesn't run is started.
pub fn start(agent: &mut Agent, heap: Global) -> Result<Vec<Deed>, AllocError>
    ensures agent { Starts (agent_of agent.old) result (agent_of agent.new) }
    ensures machine { machine_of agent.new ≡ machine_of agent.old }
    ensures moves { GoesOn (machine_of agent.old) (agent_of agent.old) (agent_of agent.new) }
{
    agent.start(heap)
}

// What runs becomes ready, or is so no more.
pub fn mark(agent: &mut Agent, task: TaskId, ready: bool) -> Result<(), NotRunning>
    ensures agent { Becomes task.0 ready (agent_of agent.old) result (agent_of agent.new) }
    ensures machine { machine_of agent.new ≡ machine_of agent.old }
    ensures moves { GoesOn (machine_of agent.old) (agent_of agent.old) (agent_of agent.new) }
{
    agent.mark(task, ready)
}

// What runs dies.
pub fn die(agent: &mut Agent, task: TaskId) -> Result<(), NotRunning>
    ensures agent { Dies task.0 (agent_of agent.old) result (agent_of agent.new) }
    ensures machine { machine_of agent.new ≡ machine_of agent.old }
    ensures moves { GoesOn (machine_of agent.old) (agent_of agent.old) (agent_of agent.new) }
{
    agent.die(task)
}
