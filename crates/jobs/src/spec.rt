// What a task is like.
ghost use Rattle.std.specs.Prelude.{◌≤◌};

#[derive(Clone, Copy)]
pub struct Spec {
    pub image: u32,
    pub cpu: u32,
    pub mem: u32,
    // No two tasks of the job on one machine.
    pub apart: bool,
    // How many of the tags count. (A fixed array, and no heap: a rule of the project.)
    pub count: u8,
    pub tags: [u32; 8],
    ghost few: { count ≤ 8 },
}
