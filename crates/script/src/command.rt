// What a line of a script says.
use jobs::ids::{MachineId, TaskId};

// A job as it is to be; the tags as bytes, four each.
#[derive(Drop)]
pub struct Setting<'a> {
    pub name: &'a str,
    pub image: u32,
    pub cpu: u32,
    pub mem: u32,
    pub count: u16,
    pub least: u16,
    pub most: u16,
    pub tags: Vec<u8>,
    pub apart: bool,
}

// A machine that comes; the tags as bytes, four each.
#[derive(Drop)]
pub struct Adding {
    pub machine: MachineId,
    pub cpu: u32,
    pub mem: u32,
    pub tags: Vec<u8>,
}

// What people and the clock say to the herd.
#[derive(Drop)]
pub enum Saying<'a> {
    Set(Setting<'a>),
    End(&'a str),
    Add(Adding),
    Close(MachineId),
    Reopen(MachineId),
    Forget(MachineId),
    Time(u64),
    Show(&'a str),
}

// Whether lines work, or lose, double, delay and reorder.
#[derive(Clone, Copy, Debug, PartialEq, Eq)]
pub enum Lines {
    Good,
    Bad,
}

// What happens to a letter that is picked out, by where it stands, from 1.
#[derive(Clone, Copy, Debug, PartialEq, Eq)]
pub enum Fate {
    Hand,
    Lose,
    Double,
}

#[derive(Drop)]
pub enum Command<'a> {
    Say(Saying<'a>),
    Report(MachineId),
    Ready(TaskId),
    Dies(TaskId),
    Fall(MachineId),
    Lines(Lines),
    Seed(u64),
    Deliver,
    Letters,
    Pick(Fate, u64),
    Dark(u64),
    Stores,
    // How often, and by how many ms the time goes on each time.
    Rounds(u16, u64),
    // By how many ms the time goes on each time.
    Settle(u64),
    Hex(bool),
    ShowAll,
    Check,
}
