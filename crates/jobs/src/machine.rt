// A machine, as it is added.
ghost use Rattle.std.specs.Prelude.{◌≤◌};

use crate::ids::MachineId;

#[derive(Clone, Copy)]
pub struct Machine {
    pub num: MachineId,
    pub cpu: u32,
    pub mem: u32,
    // How many of the tags count. (The array stands in the struct, as in a spec, by a rule of the project.)
    pub count: u8,
    pub tags: [u32; 16],
    ghost few: { count ≤ 16 },
}
