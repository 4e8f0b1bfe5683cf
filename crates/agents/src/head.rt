// An agent's head: its machine, its life, and the number of its last report.
ghost use Rattle.std.specs.Prelude.{◌≡◌, ◌+◌, ◌<◌, ◌&&◌, ◌==◌};

use jobs::ids::{Life, MachineId, ReportNumber};

#[derive(Clone, Copy, Debug, PartialEq, Eq)]
pub struct Head {
    pub machine: MachineId,
    pub life: Life,
    pub number: ReportNumber,
}

impl Head {
    // Of an agent that comes up, which has reported nothing.
    pub fn new(machine: MachineId, life: Life) -> Self
        ensures machine { result.machine.0 ≡ machine.0 }
        ensures life { result.life.0 ≡ life.0 }
        ensures number { result.number.0 ≡ 0 }
    {
        Head {
            machine,
            life,
            number: ReportNumber(0),
        }
    }

    // Of the next report.
    pub(crate) fn next(self) -> Self
        requires { self.number.0 < 4611686018427387904 }
        ensures machine { result.machine.0 ≡ self.machine.0 }
        ensures life { result.life.0 ≡ self.life.0 }
        ensures number { result.number.0 ≡ self.number.0 + 1 }
    {
        Head {
            number: ReportNumber(self.number.0 + 1),
            ..self
        }
    }

    // Whether both are of the same report: `==`, with its clause.
    pub fn same(self, other: Head) -> bool
        ensures { result ≡ (other.machine.0 == self.machine.0 && other.life.0 == self.life.0 && other.number.0 == self.number.0) }
    {
        self == other
    }
}
