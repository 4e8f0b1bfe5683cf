// Adding a machine.
ghost use Rattle.std.specs.Prelude.{◌≡◌, ℕ, ◌/◌, ◌≤◌, length, take};
ghost use Rattle.model.proofs.Settles.{Fine};
ghost use Rattle.jobs.specs.Layout.{home_words_lem, live_words};
ghost use Rattle.jobs.specs.Tables.{state_of};
ghost use Rattle.calls.specs.Acted.{Acted};
ghost use Rattle.calls.specs.Adding.{Put, too_much_lem};
ghost use Rattle.calls.specs.Meaning.{call_of, tags_of};
ghost use Rattle.calls.specs.declared.call.Call.TheVariants.{Add};

use crate::answer::{Answer, Refusal};
use crate::call::Added;
use jobs::finding::find_machine;
use jobs::machine::Machine;
use jobs::machine_rows::add_machine;
use octets::field::filled;
use settling::pass::settle;

const MOST: u32 = 1_000_000_000;

// Is there more cpu or memory than a machine may have, or are there more than 16 tags.
fn too_much(added: Added) -> bool
    ensures { result ≡ too_much_lem added.entry }
{
    added.cpu > MOST || added.mem > MOST || added.tags.len() / 4 > 16
}

// The machine, with its tags as numbers.
fn machine(added: Added) -> Machine
    requires { length added.tags.now / 4 ≤ 16 }
    ensures num { result.num.0 ≡ added.entry.machine.0 }
    ensures cpu { result.cpu ≡ added.entry.cpu }
    ensures mem { result.mem ≡ added.entry.mem }
    ensures tags { take result.count result.tags ≡ tags_of added.entry.tags.now }
{
    Machine {
        num: added.machine,
        cpu: added.cpu,
        mem: added.mem,
        count: (added.tags.len() / 4) as u8,
        tags: filled(added.tags),
    }
}

// The machine comes, behind the others; or why not.
fn put(home: &mut [u64], live: &mut [u64], added: Added) -> Result<(), Refusal>
    requires words { home_words_lem ≤ length home.old }
    requires flags { live_words ≤ length live.old }
    ensures { Put added.entry home.old live.old home.new live.new result }
{
    if find_machine(home, added.machine).is_some() {
        return Err(Refusal::Present);
    }
    if too_much(added) {
        return Err(Refusal::Malformed);
    }
    add_machine(home, live, machine(added))?;
    Ok(())
}

// A machine comes, and a pass follows.
pub fn add<'a>(home: &mut [u64], live: &mut [u64], time: u64, added: Added) -> Answer<'a>
    requires words { home_words_lem ≤ length home.old }
    requires flags { live_words ≤ length live.old }
    requires fine { Fine (state_of home.old live.old time) }
    ensures acted { Acted (call_of (Add added.entry)) home.old live.old time result home.new live.new time }
    ensures long { (length home.new ≡ length home.old) × (length live.new ≡ length live.old) }
{
    let done = put(home, live, added);
    if done.is_ok() {
        settle(home, live, time);
    }
    Answer::from(done)
}
