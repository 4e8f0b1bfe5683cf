// Worked cases.
ghost use Rattle.model.specs.Cases.{TableHolds};

// Each row of the table of cases, played from the blank state, is answered as it says,
// and leaves the tasks and the cpu counted on each machine that it says, after every call.
pub fn table_holds() -> u8
    ensures { TableHolds }
{
    0
}
