// The machines that are played, in the order in which they were first named.
use agents::agent::Agent;
use jobs::ids::{Life, MachineId};
use script::bad::Bad;
use std::alloc::Global;

// So many are played at the most.
const MOST: usize = 8;

// All that runs there is ready.
fn make_ready(agent: &mut Agent) {
    for i in 0..agent.seens().len() {
        if let Some(task) = agent.seens().get(i).map(|seen| seen.task) {
            let _ = agent.mark(task, true);
        }
    }
}

#[derive(Drop)]
pub struct Machines {
    agents: Vec<Agent>,
}

impl Machines {
    pub fn new(heap: Global) -> Self {
        Machines {
            agents: Vec::new(heap),
        }
    }

    pub fn agents(&self) -> &[Agent] {
        self.agents.as_slice()
    }

    // Where that machine stands, if it is played.
    pub fn place(&self, machine: MachineId) -> Option<usize> {
        self.agents
            .iter()
            .position(|agent| agent.head().machine == machine)
    }

    // That machine's agent, if it is played.
    pub fn agent(&self, machine: MachineId) -> Option<&Agent> {
        self.agents
            .iter()
            .find(|agent| agent.head().machine == machine)
    }

    pub fn agent_mut(&mut self, machine: MachineId) -> Option<&mut Agent> {
        let place = self.place(machine)?;
        self.agents.get_mut(place)
    }

    pub fn at(&mut self, place: usize) -> Option<&mut Agent> {
        self.agents.get_mut(place)
    }

    pub fn agents_mut(&mut self) -> &mut [Agent] {
        self.agents.as_mut_slice()
    }

    // How many tasks really run.
    pub fn count_running(&self) -> usize {
        let mut count = 0usize;
        for agent in &self.agents {
            count = count.saturating_add(agent.seens().len());
        }
        count
    }

    // How many of them are ready.
    pub fn count_ready(&self) -> usize {
        let mut count = 0usize;
        for agent in &self.agents {
            let ready = agent.seens().iter().filter(|seen| seen.ready).count();
            count = count.saturating_add(ready);
        }
        count
    }

    // All that runs is ready.
    pub fn ready_all(&mut self) {
        for agent in self.agents.iter_mut() {
            make_ready(agent);
        }
    }

    // Where that machine stands: played from here on, if it wasn't.
    pub fn name(&mut self, heap: Global, machine: MachineId) -> Result<usize, Bad> {
        if let Some(place) = self.place(machine) {
            return Ok(place);
        }
        let place = self.agents.len();
        if place >= MOST {
            return Err(Bad::Ninth(machine));
        }
        self.agents.push(Agent::new(heap, machine, Life(1)))?;
        Ok(place)
    }

    // The machine falls, and its agent comes up anew.
    pub fn fall(&mut self, heap: Global, machine: MachineId) -> Option<Life> {
        let place = self.place(machine)?;
        let agent = self.agents.get_mut(place)?;
        let life = Life(agent.head().life.0.saturating_add(1));
        *agent = Agent::new(heap, machine, life);
        Some(life)
    }
}
