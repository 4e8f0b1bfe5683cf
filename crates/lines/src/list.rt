// The two lists of tasks that answers have: what is to run on a machine, and what a job's tasks are.
ghost use Rattle.std.specs.Prelude.{◌≡◌, ◌%◌, not, ◌&&◌, length, drop, ◌==◌};
ghost use Rattle.model.specs.Lists.{same};
ghost use Rattle.model.specs.State.{of_job};
ghost use Rattle.model.specs.Wire as w;
ghost use Rattle.jobs.specs.Rows.{at};
ghost use Rattle.jobs.specs.Tables.{name_from_lem};
ghost use Rattle.jobs.specs.Values.{machine_of, phase_of};
ghost use Rattle.lines.specs.Listings.{line_of, order_of, runs_on_lem};

use crate::listing::Listing;
use crate::write::{put_number, put_spec, put_u8};
use jobs::ids::MachineId;
use jobs::phase::Phase;
use jobs::rows::TaskRow;

// What is to run on a machine.
#[derive(Clone, Copy)]
pub struct RunsOn(pub MachineId);

// The tasks of the job of that name, which may be of any length.
#[derive(Clone, Copy)]
pub struct OfJob<'a>(pub &'a [u8]);

// Is there a task in a row that is to run on a machine: told to it, or ready there, and not ending.
fn runs_on(row: TaskRow, machine: MachineId) -> bool
    ensures { result ≡ (not (at row.entry.words.now 0 == 0) && (at row.entry.words.now 1 == 1 && machine.0 == at row.entry.words.now 2 % 65536)) }
{
    !row.is_hole() && row.is_placed() && machine == row.machine()
}

impl Listing for RunsOn {
    ghost which = { λ x. runs_on_lem x.0.0 };

    ghost each = { λ _. order_of };

    fn lists(&self, row: TaskRow<'_>) -> bool {
        runs_on(row, self.0)
    }

    fn put_task(&self, out: &mut [u8], at: usize, row: TaskRow<'_>, _ready: u64) -> usize {
        let end = put_number(out, at, row.id().0);
        put_spec(out, end, &row.kind().spec())
    }
}

// Is there a task of the job of that name in a row.
pub fn is_of(row: TaskRow, name: &[u8]) -> bool
    ensures { result ≡ (not (at row.entry.words.now 0 == 0) && same name.now (name_from_lem (drop 4 row.entry.words.now))) }
{
    !row.is_hole() && row.kind().is_named(&name)
}

// The number that the bytes have for a phase. (A match over phases, here and below, by a rule of the project.)
fn phase_number(phase: Phase) -> u8
    ensures { result ≡ w.phase_of (phase_of phase) }
{
    match phase {
        Phase::Waiting => 0,
        Phase::Told(_) => 1,
        Phase::Ready(_) => 2,
        Phase::Ending(_) => 3,
    }
}

// The machine, 0 for a task that waits.
fn machine_number(phase: Phase) -> u16
    ensures { result ≡ machine_of phase }
{
    match phase {
        Phase::Waiting => 0,
        Phase::Told(place) | Phase::Ready(place) | Phase::Ending(place) => place.machine.0,
    }
}

impl<'a> Listing for OfJob<'a> {
    ghost which = { λ x. of_job x.0.now };

    ghost each = { λ _. line_of };

    fn lists(&self, row: TaskRow<'_>) -> bool {
        is_of(row, self.0)
    }

    fn put_task(&self, out: &mut [u8], at: usize, row: TaskRow<'_>, ready: u64) -> usize {
        let phase = row.phase(ready);
        let end = put_number(out, at, row.id().0);
        let end = put_number(out, end, row.kind().version().0);
        let end = put_u8(out, end, phase_number(phase));
        put_number(out, end, machine_number(phase))
    }
}
