// Calls and answers worked out by hand.
use crate::call::call_frame;
use crate::read::read_reply;
use crate::reply::Reply;
use crate::unwritten::Unwritten;
use calls::call::{Added, Call, Likeness, Reported, Wanted};
use jobs::ids::{Life, MachineId, ReportNumber};
use std::alloc::Global;

// To report 3 of machine 1 in life 2: run task 9, of image 7 with 4 of cpu and 5 of memory, with tag 6, apart.
const RUN: [u8; 55] = [
    0, 0, 0, 51, 0, 0, 0, 1, 2, 0, 1, 0, 0, 0, 0, 0, 0, 0, 2, 0, 0, 0, 0, 0, 0, 0, 3, 0, 1, 0, 0,
    0, 0, 0, 0, 0, 9, 0, 0, 0, 7, 0, 0, 0, 4, 0, 0, 0, 5, 1, 0, 0, 0, 6, 1,
];

// Task 2^64 - 1, version 1, ready on machine 65535; and task 1, which waits.
const LINES: [u8; 41] = [
    0, 0, 0, 37, 255, 255, 255, 255, 3, 0, 2, 255, 255, 255, 255, 255, 255, 255, 255, 0, 0, 0, 1,
    2, 255, 255, 0, 0, 0, 0, 0, 0, 0, 1, 0, 0, 0, 1, 0, 0, 0,
];

fn writes(heap: Global, call: &Call, line: &[u8]) -> bool {
    match call_frame(heap, 7, call) {
        Ok(bytes) => bytes.as_slice() == line,
        Err(_) => false,
    }
}

fn too_long(heap: Global, call: &Call) -> bool {
    match call_frame(heap, 7, call) {
        Ok(_) => false,
        Err(why) => why == Unwritten::TooLong,
    }
}

// The kind, and the number or how many are listed.
fn kind(reply: &Reply) -> (u8, usize) {
    match reply {
        Reply::TurnedAway(number) => (0, usize::from(*number)),
        Reply::Yes => (1, 0),
        Reply::Run(run) => (2, run.orders.len()),
        Reply::Lines(lines) => (3, lines.len()),
    }
}

// The tag with those, where it is an answer.
fn says(heap: Global, line: &[u8]) -> Option<(u32, (u8, usize))> {
    match read_reply(heap, line) {
        Ok(answered) => Some((answered.tag, kind(&answered.reply))),
        Err(_) => None,
    }
}

#[test]
fn calls_by_hand(rt: HostRuntime) {
    let heap = rt.alloc();
    let mix = b"mix".as_slice();
    assert!(rt;
        writes(
            heap,
            &Call::Show(mix),
            &[0, 0, 0, 9, 0, 0, 0, 7, 9, 3, 109, 105, 120]
        )
    );
    assert!(rt; writes(heap, &Call::End(&[]), &[0, 0, 0, 6, 0, 0, 0, 7, 2, 0]));
    assert!(rt;
        writes(
            heap,
            &Call::Close(MachineId(258)),
            &[0, 0, 0, 7, 0, 0, 0, 7, 4, 1, 2]
        )
    );
    assert!(rt;
        writes(
            heap,
            &Call::Reopen(MachineId(0)),
            &[0, 0, 0, 7, 0, 0, 0, 7, 5, 0, 0]
        )
    );
    assert!(rt;
        writes(
            heap,
            &Call::Forget(MachineId(65535)),
            &[0, 0, 0, 7, 0, 0, 0, 7, 6, 255, 255]
        )
    );
    assert!(rt;
        writes(
            heap,
            &Call::Time(1 << 62),
            &[0, 0, 0, 13, 0, 0, 0, 7, 8, 64, 0, 0, 0, 0, 0, 0, 0]
        )
    );
}

#[test]
fn long_calls_by_hand(rt: HostRuntime) {
    let heap = rt.alloc();
    let like = Likeness {
        image: 1,
        cpu: 2,
        mem: 4_294_967_295,
        tags: &[],
        apart: true,
    };
    let set = Call::Set(Wanted {
        name: b"a".as_slice(),
        like,
        count: 2,
        least: 1,
        most: 65535,
    });
    assert!(rt;
        writes(
            heap,
            &set,
            &[
                0, 0, 0, 27, 0, 0, 0, 7, 1, 1, 97, 0, 0, 0, 1, 0, 0, 0, 2, 255, 255, 255, 255, 0,
                1, 0, 2, 0, 1, 255, 255
            ]
        )
    );
    let add = Call::Add(Added {
        machine: MachineId(3),
        cpu: 1,
        mem: 0,
        tags: &[0, 0, 0, 5],
    });
    assert!(rt;
        writes(
            heap,
            &add,
            &[
                0, 0, 0, 20, 0, 0, 0, 7, 3, 0, 3, 0, 0, 0, 1, 0, 0, 0, 0, 1, 0, 0, 0, 5
            ]
        )
    );
    let report = Call::Report(Reported {
        machine: MachineId(1),
        life: Life(2),
        number: ReportNumber(3),
        tasks: &[0, 0, 0, 0, 0, 0, 0, 9, 1],
    });
    assert!(rt;
        writes(
            heap,
            &report,
            &[
                0, 0, 0, 34, 0, 0, 0, 7, 7, 0, 1, 0, 0, 0, 0, 0, 0, 0, 2, 0, 0, 0, 0, 0, 0, 0, 3,
                0, 1, 0, 0, 0, 0, 0, 0, 0, 9, 1
            ]
        )
    );
    assert!(rt; too_long(heap, &Call::Show(&[97; 256])));
    assert!(rt; !too_long(heap, &Call::Show(&[97; 255])));
}

#[test]
fn answers_by_hand(rt: HostRuntime) {
    let heap = rt.alloc();
    assert!(rt; says(heap, &[0, 0, 0, 6, 0, 0, 1, 0, 0, 12]) == Some((256, (0, 12))));
    assert!(rt; says(heap, &[0, 0, 0, 5, 0, 0, 0, 2, 1]) == Some((2, (1, 0))));
    assert!(rt; says(heap, &RUN) == Some((1, (2, 1))));
    assert!(rt; says(heap, &LINES) == Some((4_294_967_295, (3, 2))));
    // Frames of another length, of lengths near 2^32; no kind; nothing.
    assert!(rt; says(heap, &[0, 0, 0, 6, 0, 0, 0, 2, 1]).is_none());
    assert!(rt; says(heap, &[255, 255, 255, 255, 0, 0, 0, 2, 1]).is_none());
    assert!(rt; says(heap, &[0, 0, 0, 5, 0, 0, 0, 2, 4]).is_none());
    assert!(rt; says(heap, &[]).is_none());
}

// No front part of an answer is one; nor is one with more listed than there is, another phase, or another apart.
#[test]
fn hostile_answers(rt: HostRuntime) {
    let heap = rt.alloc();
    for n in 0..RUN.len() {
        assert!(rt; says(heap, &RUN[..n]).is_none());
    }
    for n in 0..LINES.len() {
        assert!(rt; says(heap, &LINES[..n]).is_none());
    }
    let mut line = RUN;
    line[27] = 255;
    assert!(rt; says(heap, &line).is_none());
    line[27] = 0;
    line[54] = 2;
    assert!(rt; says(heap, &line).is_none());
    let mut line = LINES;
    line[9] = 255;
    assert!(rt; says(heap, &line).is_none());
    line[9] = 0;
    line[23] = 4;
    assert!(rt; says(heap, &line).is_none());
}
