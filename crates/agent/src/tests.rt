// An agent without its file and its lines.
use agents::agent::Agent;
use agents::life::{first_life, life_bytes, next_life};
use agents::order::Deed;
use jobs::ids::{Life, MachineId, TaskId};
use std::test::Fail;

// The answer to report 1 of machine 7 in life 1: run task 9, of image 3.
const RUN: [u8; 51] = [
    0, 0, 0, 47, 0, 0, 0, 1, 2, 0, 7, 0, 0, 0, 0, 0, 0, 0, 1, 0, 0, 0, 0, 0, 0, 0, 1, 0, 1, 0, 0,
    0, 0, 0, 0, 0, 9, 0, 0, 0, 3, 0, 0, 0, 4, 0, 0, 0, 5, 0, 0,
];

fn started(deed: Deed) -> u64 {
    match deed {
        Deed::Start(order) => order.task.0,
        Deed::Stop(_) => 0,
    }
}

#[test]
fn lives_rise(rt: HostRuntime) -> Result<(), Fail> {
    assert_eq!(rt; first_life().0, 1);
    let file = life_bytes(Life(41));
    assert_eq!(rt; next_life(&file).ok().ok_or("refused")?.0, 42);
    assert!(rt; next_life(&file[0..15]).is_err());
    assert!(rt; next_life(&[0u8; 16]).is_err());
    assert!(rt; next_life(&life_bytes(Life(4_611_686_018_427_387_904))).is_err());
    Ok(())
}

#[test]
fn obeys_its_last_report(rt: HostRuntime) -> Result<(), Fail> {
    let mut agent = Agent::new(rt.alloc(), MachineId(7), first_life());
    assert!(rt;
        agent.hear(rt.alloc(), &RUN).is_err(),
        "nothing was reported"
    );
    assert!(rt; agent.report(rt.alloc()).is_ok());
    let deeds = agent.hear(rt.alloc(), &RUN).ok().ok_or("passed over")?;
    assert!(rt; deeds.len() == 1);
    assert_eq!(rt; started(deeds[0]), 9);
    assert!(rt; agent.mark(TaskId(9), true).is_ok());
    assert!(rt; agent.report(rt.alloc()).is_ok());
    assert!(rt;
        agent.hear(rt.alloc(), &RUN).is_err(),
        "it answers an earlier report"
    );
    Ok(())
}

// With any byte of its frame or its head changed, but for the tag, the answer is passed over.
#[test]
fn hostile_bytes(rt: HostRuntime) {
    for i in 0..29 {
        let mut agent = Agent::new(rt.alloc(), MachineId(7), first_life());
        assert!(rt; agent.report(rt.alloc()).is_ok());
        let mut line = RUN;
        line[i] = line[i].wrapping_add(1);
        let obeyed = agent.hear(rt.alloc(), &line).is_ok();
        assert!(rt; obeyed == (i >= 4 && i < 8), "only the tag doesn't count");
    }
}
