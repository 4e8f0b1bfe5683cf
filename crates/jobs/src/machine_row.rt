// What stands in a machine's row.
ghost use Rattle.std.specs.Prelude.{◌≡◌, ℕ, ◌%◌, length};
ghost use Rattle.model.specs.Lists.{some};
ghost use Rattle.model.specs.State.{is_machine};
ghost use Rattle.jobs.specs.Rows.{at};
ghost use Rattle.jobs.specs.Tables.{flag, low, machine_slot};

use crate::ids::{Life, MachineId, ReportNumber};
use crate::kinds::{low_half, machine_number};
use crate::rows::MachineRow;

impl MachineRow<'_> {
    pub fn num(self) -> MachineId
        ensures { result.0 ≡ at self.entry.words.now 1 % 65536 }
    {
        machine_number(self.words[1])
    }

    // Is there a machine of that number, whenever it was heard.
    pub fn is_numbered(self, num: MachineId) -> bool
        ensures { result ≡ some (is_machine num.0) (machine_slot self.entry.words.now 0) }
    {
        !self.is_hole() && num == self.num()
    }

    // (A kind has cpu and memory at the same places by chance; a method of every `Row` would be wrong of a task's.)
    pub fn cpu(self) -> u32
        ensures { result ≡ low (at self.entry.words.now 2) }
    {
        low_half(self.words[2])
    }

    pub fn mem(self) -> u32
        ensures { result ≡ low (at self.entry.words.now 3) }
    {
        low_half(self.words[3])
    }

    // Does it take new tasks.
    pub fn is_open(self) -> bool
        ensures { result ≡ flag (at self.entry.words.now 4) }
    {
        self.words[4] != 0
    }

    // The life that was last heard.
    pub fn life(self) -> Life
        ensures { result.0 ≡ at self.entry.words.now 5 }
    {
        Life(self.words[5])
    }

    // The number of the last report.
    pub fn number(self) -> ReportNumber
        ensures { result.0 ≡ at self.entry.words.now 6 }
    {
        ReportNumber(self.words[6])
    }
}
