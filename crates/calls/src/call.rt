// What people, the clock and agents say to the herd, over the bytes in which it came.
use jobs::ids::{Life, MachineId, ReportNumber};

// What a job's tasks are to be like; the tags as they came, four bytes each, and maybe too many.
#[derive(Clone, Copy)]
pub struct Likeness<'a> {
    pub image: u32,
    pub cpu: u32,
    pub mem: u32,
    pub tags: &'a [u8],
    pub apart: bool,
}

#[derive(Clone, Copy)]
pub struct Wanted<'a> {
    pub name: &'a [u8],
    pub like: Likeness<'a>,
    pub count: u16,
    pub least: u16,
    pub most: u16,
}

#[derive(Clone, Copy)]
pub struct Added<'a> {
    pub machine: MachineId,
    pub cpu: u32,
    pub mem: u32,
    pub tags: &'a [u8],
}

// The tasks as they came, nine bytes each.
#[derive(Clone, Copy)]
pub struct Reported<'a> {
    pub machine: MachineId,
    pub life: Life,
    pub number: ReportNumber,
    pub tasks: &'a [u8],
}

#[derive(Clone, Copy)]
pub enum Call<'a> {
    Set(Wanted<'a>),
    End(&'a [u8]),
    Add(Added<'a>),
    Close(MachineId),
    Reopen(MachineId),
    Forget(MachineId),
    Report(Reported<'a>),
    Time(u64),
    Show(&'a [u8]),
}
