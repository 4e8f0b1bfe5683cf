// A few passes, on examples.
ghost use Rattle.std.specs.Prelude.{◌≡◌, ℕ, ◌+◌, ◌*◌, ◌<◌, ◌≤◌, true, List, length};
ghost use Rattle.jobs.specs.Layout.{home_words_lem};
ghost use Rattle.jobs.specs.Tables.{state_of};
ghost use Rattle.settling.specs.Scan.{Numbered};

use crate::pass::settle;
use jobs::ids::{Life, MachineId, ReportNumber, Version};
use jobs::job::Job;
use jobs::job_rows::{add_job, put_job};
use jobs::layout::{HOME_WORDS, LIVE_WORDS, READY_BASE};
use jobs::machine::Machine;
use jobs::machine_rows::{add_machine, hear};
use jobs::name::Name;
use jobs::rows::{JOBS, MACHINES, TASKS};
use jobs::spec::Spec;
use jobs::tasks::{end_task, remove_task};
use std::test::Fail;

// Do the tasks have rising numbers, not above the last given.
fn is_numbered(home: &[u64]) -> bool
    requires { home_words_lem ≤ length home.now }
    ensures { result ≡ true → (live : List ℕ) (time : ℕ) → Numbered (state_of home.now live time) }
{
    let mut last = 0;
    for i in 0..TASKS.in_use(home) {
        let id = TASKS.row(home, i).words[0];
        if id != 0 {
            if id <= last {
                return false;
            }
            last = id;
        }
    }
    last <= home[0]
}

fn machine(num: u16) -> Machine {
    Machine {
        num: MachineId(num),
        cpu: 10,
        mem: 10,
        count: 0,
        tags: [0; 16],
    }
}

// A job that is named by one letter.
fn job_named(letter: u8, cpu: u32, version: u32, tags: u8, count: u16) -> Job
    requires { tags ≤ 8 }
    ensures { result.version.0 ≡ version }
{
    Job {
        name: Name {
            len: 1,
            words: [
                u64::from_be_bytes([letter, 0, 0, 0, 0, 0, 0, 0]),
                0,
                0,
                0,
                0,
                0,
                0,
                0,
            ],
        },
        version: Version(version),
        spec: Spec {
            image: version,
            cpu,
            mem: 1,
            apart: false,
            count: tags,
            tags: [9; 8],
        },
        count,
        least: 1,
        most: 3,
    }
}

fn job(version: u32, tags: u8, count: u16) -> Job
    requires { tags ≤ 8 }
    ensures { result.version.0 ≡ version }
{
    job_named(b'a', 4, version, tags, count)
}

// One pass at that time, and then number, phase and machine in row `i`.
fn pass_at(time: u64, home: &mut [u64], live: &mut [u64], i: usize) -> Result<[u64; 3], Fail> {
    if home.len() < HOME_WORDS || live.len() < LIVE_WORDS || i >= 2048 {
        return Err(Fail::new("too short"));
    }
    if !is_numbered(home) {
        return Err(Fail::new("not numbered"));
    }
    settle(home, live, time);
    let row = TASKS.row(home, i).words;
    Ok([row[0], row[1], row[2]])
}

// The same, soon after all was heard.
fn pass(home: &mut [u64], live: &mut [u64], i: usize) -> Result<[u64; 3], Fail> {
    pass_at(5, home, live, i)
}

// A machine that was heard at time 1, in row `i`.
fn heard_machine(home: &mut [u64], live: &mut [u64], i: usize) -> Result<(), Fail> {
    if home.len() < HOME_WORDS || live.len() < LIVE_WORDS || i >= 256 {
        return Err(Fail::new("too short"));
    }
    if add_machine(home, live, machine(i as u16 + 1)).is_err() || i >= MACHINES.in_use(home) {
        return Err(Fail::new("no machine"));
    }
    hear(home, live, i, Life(1), ReportNumber(1), 1);
    Ok(())
}

// One more job.
fn add(home: &mut [u64], job: Job) -> Result<(), Fail> {
    if home.len() < HOME_WORDS {
        return Err(Fail::new("too short"));
    }
    add_job(home, job).map_err(|_| Fail::new("no more jobs"))
}

// The first task goes to the first machine, the next to the one with most left; a third isn't wanted.
#[test]
fn tasks_spread(rt: HostRuntime) -> Result<(), Fail> {
    let mut home = [0; HOME_WORDS];
    let mut live = [0; LIVE_WORDS];
    heard_machine(&mut home, &mut live, 0)?;
    heard_machine(&mut home, &mut live, 1)?;
    add(&mut home, job(1, 0, 2))?;
    assert_eq!(rt; pass(&mut home, &mut live, 0)?, [1, 1, 1]);
    assert_eq!(rt; pass(&mut home, &mut live, 1)?, [2, 1, 2]);
    assert_eq!(rt; pass(&mut home, &mut live, 2)?, [0, 0, 0]);
    Ok(())
}

// A new version: the last old one ends while enough are ready, and one new task comes.
#[test]
fn versions_roll(rt: HostRuntime) -> Result<(), Fail> {
    let mut home = [0; HOME_WORDS];
    let mut live = [0; LIVE_WORDS];
    heard_machine(&mut home, &mut live, 0)?;
    heard_machine(&mut home, &mut live, 1)?;
    add(&mut home, job(1, 0, 2))?;
    assert_eq!(rt; pass(&mut home, &mut live, 0)?, [1, 1, 1]);
    assert_eq!(rt; pass(&mut home, &mut live, 1)?, [2, 1, 2]);
    live[READY_BASE] = 1;
    live[READY_BASE + 1] = 1;
    if JOBS.in_use(&home) < 1 {
        return Err(Fail::new("no job"));
    }
    put_job(&mut home, 0, job(2, 0, 2));
    assert_eq!(rt; pass(&mut home, &mut live, 1)?, [2, 2, 2]);
    assert_eq!(rt; pass(&mut home, &mut live, 0)?, [1, 1, 1]);
    assert_eq!(rt; pass(&mut home, &mut live, 2)?, [3, 1, 1]);
    Ok(())
}

// A task that needs a tag that no machine has waits.
#[test]
fn tags_are_missed(rt: HostRuntime) -> Result<(), Fail> {
    let mut home = [0; HOME_WORDS];
    let mut live = [0; LIVE_WORDS];
    heard_machine(&mut home, &mut live, 0)?;
    heard_machine(&mut home, &mut live, 1)?;
    add(&mut home, job(1, 1, 2))?;
    assert_eq!(rt; pass(&mut home, &mut live, 0)?, [1, 0, 0]);
    assert_eq!(rt; pass(&mut home, &mut live, 1)?, [2, 0, 0]);
    Ok(())
}

// A task that is ending counts on its machine until it is gone: what needs its room waits, and goes there then.
#[test]
fn ending_counts(rt: HostRuntime) -> Result<(), Fail> {
    let mut home = [0; HOME_WORDS];
    let mut live = [0; LIVE_WORDS];
    heard_machine(&mut home, &mut live, 0)?;
    add(&mut home, job(1, 0, 1))?;
    assert_eq!(rt; pass(&mut home, &mut live, 0)?, [1, 1, 1]);
    end_task(&mut home, 0);
    add(&mut home, job_named(b'b', 7, 1, 0, 1))?;
    assert_eq!(rt; pass(&mut home, &mut live, 0)?, [1, 2, 1]);
    assert_eq!(rt; pass(&mut home, &mut live, 2)?, [3, 0, 0]);
    remove_task(&mut home, 0);
    remove_task(&mut home, 1);
    assert_eq!(rt; pass(&mut home, &mut live, 2)?, [3, 1, 1]);
    Ok(())
}

// A machine is present for 30 seconds after it was heard, and given nothing afterwards.
#[test]
fn silence_is_absence(rt: HostRuntime) -> Result<(), Fail> {
    let mut home = [0; HOME_WORDS];
    let mut live = [0; LIVE_WORDS];
    heard_machine(&mut home, &mut live, 0)?;
    add(&mut home, job(1, 0, 2))?;
    assert_eq!(rt; pass_at(30_001, &mut home, &mut live, 0)?, [1, 1, 1]);
    assert_eq!(rt; pass_at(30_002, &mut home, &mut live, 1)?, [2, 0, 0]);
    Ok(())
}
