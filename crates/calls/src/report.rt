// A report.
ghost use Rattle.std.specs.Prelude.{◌≡◌, ℕ, ◌<◌, ◌≤◌, List, length};
ghost use Rattle.model.proofs.Settles.{Fine};
ghost use Rattle.jobs.specs.Layout.{home_words_lem, live_words};
ghost use Rattle.jobs.specs.Tables.{state_of};
ghost use Rattle.calls.specs.Acted.{Acted};
ghost use Rattle.calls.specs.declared.call.Call.TheVariants.{Report};
ghost use Rattle.model.specs.Calls.{heard};
ghost use Rattle.model.specs.Settle.{settle as settled};
ghost use Rattle.calls.specs.Meaning.{call_of, seens_of};
ghost use Rattle.calls.specs.Reports.{HeardIn, ReportChecked, out_of_range_lem, stale_for};

use crate::answer::{Answer, Refusal, RunOn};
use crate::call::Reported;
use crate::sweeps::hear;
use jobs::finding::find_machine;
use jobs::ids::{LAST, Life, ReportNumber};
use jobs::machine_rows;
use jobs::rows::MACHINES;
use settling::pass::settle;

// Is a number of the report above 2^62, or are there more than 2,048 tasks.
fn out_of_range(report: Reported) -> bool
    ensures { result ≡ out_of_range_lem report.entry }
{
    report.life.0 > LAST || report.number.0 > LAST || report.tasks.len() / 9 > 2048
}

// Is the report no news, where a machine's row has this life and number.
fn stale(report: Reported, life: Life, number: ReportNumber) -> bool
    ensures { result ≡ stale_for report.entry life.0 number.0 }
{
    (report.life, report.number) <= (life, number)
}

// The row of the report's machine, where the report is news.
fn check(home: &[u64], report: Reported) -> Result<usize, Refusal>
    requires { home_words_lem ≤ length home.now }
    ensures { ReportChecked report.entry home.now result }
{
    if out_of_range(report) {
        return Err(Refusal::Malformed);
    }
    let i = find_machine(home, report.machine).ok_or(Refusal::Unknown)?;
    let row = MACHINES.row(home, i);
    if stale(report, row.life(), row.number()) {
        return Err(Refusal::Stale);
    }
    Ok(i)
}

// What is news is noted, and followed by a pass.
fn take(home: &mut [u64], live: &mut [u64], time: u64, i: usize, report: Reported)
    requires words { home_words_lem ≤ length home.old }
    requires flags { live_words ≤ length live.old }
    requires fine { Fine (state_of home.old live.old time) }
    requires there { HeardIn report.machine.0 i home.old live.old }
    ensures { state_of home.new live.new time ≡ settled (heard report.entry.machine.0 report.entry.life.0 report.entry.number.0 (seens_of report.entry.tasks.now) (state_of home.old live.old time)) }
{
    hear(home, live, report);
    machine_rows::hear(home, live, i, report.life, report.number, time);
    settle(home, live, time);
}

// A report: refused, or noted, followed by a pass, and answered with all that is to run on its machine.
pub fn report<'a>(home: &mut [u64], live: &mut [u64], time: u64, report: Reported) -> Answer<'a>
    requires words { home_words_lem ≤ length home.old }
    requires flags { live_words ≤ length live.old }
    requires fine { Fine (state_of home.old live.old time) }
    ensures acted { Acted (call_of (Report report.entry)) home.old live.old time result home.new live.new time }
    ensures long { (length home.new ≡ length home.old) × (length live.new ≡ length live.old) }
{
    match check(home, report) {
        Err(why) => Answer::TurnedAway(why),
        Ok(i) => {
            take(home, live, time, i, report);
            Answer::Run(RunOn {
                machine: report.machine,
                life: report.life,
                number: report.number,
            })
        }
    }
}
