// Is the herd at rest, how many rounds until then are promised, and is there room for that.
use crate::tally::{count, load_on};
use calls::mind::Mind;
use jobs::job::Job;
use jobs::layout::{MAX_MACHINES, MAX_TASKS};
use jobs::naming::Spelled;
use jobs::phase::Phase;
use jobs::rows::{JOBS, MACHINES, MachineRow, TASKS};
use jobs::spec::Spec;
use settling::presence::heard_lately;
use std::alloc::{AllocError, Global};

// The tasks of a job: all, those that aren't ending, and those of its present version that are ready.
#[derive(Clone, Copy, Debug, PartialEq, Eq)]
struct Tasks {
    all: usize,
    alive: usize,
    right: usize,
}

// All jobs added up.
#[derive(Clone, Copy, Debug, Default, PartialEq, Eq)]
struct Total {
    tasks: usize,
    wanted: usize,
    // The largest job: its tasks that aren't ending, and its count.
    largest: usize,
    // Of each job what there is of it, or its most, if that is more.
    widest: usize,
    // Has a job other tasks than those that are wanted, all ready.
    unsettled: bool,
}

fn is_alive(phase: Phase) -> bool {
    !matches!(phase, Phase::Ending(_))
}

fn tasks_of(mind: &Mind, job: &Job) -> Tasks {
    Tasks {
        all: count(mind, |row, _| row.kind().is_named(&job.name)),
        alive: count(mind, |row, phase| {
            is_alive(phase) && row.kind().is_named(&job.name)
        }),
        right: count(mind, |row, phase| {
            matches!(phase, Phase::Ready(_))
                && row.kind().is_named(&job.name)
                && row.kind().version() == job.version
        }),
    }
}

impl Total {
    // One job more.
    fn with(self, job: &Job, tasks: Tasks) -> Self {
        let wanted = usize::from(job.count);
        Total {
            tasks: self.tasks.saturating_add(tasks.all),
            wanted: self.wanted.saturating_add(wanted),
            largest: self.largest.max(tasks.alive.saturating_add(wanted)),
            widest: self
                .widest
                .saturating_add(tasks.all.max(usize::from(job.most))),
            unsettled: self.unsettled || tasks.all != wanted || tasks.right != wanted,
        }
    }
}

fn add_up(mind: &Mind) -> Total {
    let mut total = Total::default();
    for r in 0..JOBS.in_use(&mind.home) {
        let row = JOBS.row(&mind.home, r);
        if !row.is_hole() {
            let job = row.job();
            total = total.with(&job, tasks_of(mind, &job));
        }
    }
    total
}

// Each job has exactly as many tasks as are wanted, of its present version, all ready, and nothing else is there.
pub fn is_at_rest(mind: &Mind) -> bool {
    let total = add_up(mind);
    !total.unsettled && count(mind, |_, _| true) == total.wanted
}

// So many rounds are enough, if there is always room: by the largest job, where the limit of tasks cannot bind, and else by all jobs.
pub fn enough(mind: &Mind) -> usize {
    let total = add_up(mind);
    let strays = count(mind, |_, _| true).saturating_sub(total.tasks);
    let work = if total.widest.saturating_add(strays) <= MAX_TASKS {
        total.largest
    } else {
        count(mind, |_, phase| is_alive(phase)).saturating_add(total.wanted)
    };
    work.saturating_mul(2).saturating_add(3)
}

fn phase_number(phase: Phase) -> u64 {
    match phase {
        Phase::Waiting => 0,
        Phase::Told(_) => 1,
        Phase::Ready(_) => 2,
        Phase::Ending(_) => 3,
    }
}

// Of each task its number, phase and machine, so that two moments can be compared.
pub fn snapshot(heap: Global, mind: &Mind) -> Result<Vec<u64>, AllocError> {
    let mut all = Vec::new(heap);
    for i in 0..TASKS.in_use(&mind.home) {
        let row = TASKS.row(&mind.home, i);
        if !row.is_hole() {
            let phase = phase_number(row.phase(mind.live[MAX_MACHINES + i]));
            all.extend_from_slice(&[row.id().0, phase, u64::from(row.machine().0)])?;
        }
    }
    Ok(all)
}

// Has the machine all tags of a likeness.
fn has_tags(row: MachineRow, spec: &Spec) -> bool {
    let tags = row.words[7].min(16) as usize;
    spec.tags[..usize::from(spec.count)].iter().all(|tag| {
        row.words[8..8 + tags]
            .iter()
            .any(|word| *word == u64::from(*tag))
    })
}

// Does a machine take one more task of a job.
fn takes(mind: &Mind, row: MachineRow, heard: u64, job: &Job) -> bool {
    let load = load_on(mind, row.num());
    let mine = count(mind, |task, _| {
        !task.is_waiting() && task.machine() == row.num() && task.kind().is_named(&job.name)
    });
    row.is_open()
        && heard_lately(heard, mind.time)
        && has_tags(row, &job.spec)
        && !(job.spec.apart && mine > 0)
        && load.cpu.saturating_add(u64::from(job.spec.cpu)) <= u64::from(row.cpu())
        && load.mem.saturating_add(u64::from(job.spec.mem)) <= u64::from(row.mem())
}

// Does some machine take one more task of a job.
fn has_room(mind: &Mind, job: &Job) -> bool {
    for r in 0..MACHINES.in_use(&mind.home) {
        let row = MACHINES.row(&mind.home, r);
        if !row.is_hole() && takes(mind, row, mind.live[r], job) {
            return true;
        }
    }
    false
}

fn name_of(heap: Global, job: &Job) -> Result<String, AllocError> {
    let mut name = String::new(heap);
    for k in 0..job.name.len() {
        name.push(char::from(job.name.byte(k)))?;
    }
    Ok(name)
}

// The first job of which no machine takes one more task.
pub fn without_room(heap: Global, mind: &Mind) -> Result<Option<String>, AllocError> {
    for r in 0..JOBS.in_use(&mind.home) {
        let row = JOBS.row(&mind.home, r);
        if row.is_hole() {
            continue;
        }
        let job = row.job();
        if !has_room(mind, &job) {
            return Ok(Some(name_of(heap, &job)?));
        }
    }
    Ok(None)
}
