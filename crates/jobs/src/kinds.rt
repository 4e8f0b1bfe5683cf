// What a job and its tasks have in common, and jobs, as values.
ghost use Rattle.std.specs.Prelude.{◌≡◌, ℕ, ◌+◌, ◌*◌, ◌%◌, ◌<◌, ◌≤◌, min, map, length, take, drop};
ghost use Rattle.jobs.specs.Rows.{at};
ghost use Rattle.jobs.specs.Tables.{low, spec_from_lem, version_from_lem, job_from_lem};
ghost use Rattle.jobs.specs.Values.{spec_of, job_of};

use crate::ids::{MachineId, Version};
use crate::job::Job;
use crate::rows::{JobRow, Kind, Row, TaskRow};
use crate::spec::Spec;

// The low half of a word.
pub fn low_half(w: u64) -> u32
    ensures { result ≡ low w }
{
    (w % 4_294_967_296) as u32
}

// The low sixteen bits of a word.
fn low_short(w: u64) -> u16
    ensures { result ≡ w % 65536 }
{
    (w % 65536) as u16
}

// A machine's number, as it stands in a machine's row and in a task's.
pub(crate) fn machine_number(word: u64) -> MachineId
    ensures { result.0 ≡ word % 65536 }
{
    MachineId(low_short(word))
}

impl<'a> JobRow<'a> {
    pub fn kind(self) -> Kind<'a>
        ensures { result.words.now ≡ take 23 self.entry.words.now }
    {
        Row {
            words: &self.words[..23],
        }
    }

    // The job that a row stands for that is no hole.
    pub fn job(self) -> Job
        ensures { job_of result ≡ job_from_lem self.entry.words.now }
    {
        let kind = self.kind();
        Job {
            name: kind.name(),
            version: kind.version(),
            spec: kind.spec(),
            count: low_short(self.words[23]),
            least: low_short(self.words[24]),
            most: self.most(),
        }
    }

    // How many tasks the job may have.
    pub fn most(self) -> u16
        ensures { result ≡ at self.entry.words.now 25 % 65536 }
    {
        low_short(self.words[25])
    }
}

impl<'a> TaskRow<'a> {
    pub fn kind(self) -> Kind<'a>
        ensures { result.words.now ≡ drop 4 self.entry.words.now }
    {
        Row {
            words: &self.words[4..],
        }
    }
}

impl Kind<'_> {
    pub fn version(self) -> Version
        ensures { result.0 ≡ version_from_lem self.entry.words.now }
    {
        Version(low_half(self.words[0]))
    }

    // How much cpu a task is to have.
    pub fn cpu(self) -> u32
        ensures { result ≡ low (at self.entry.words.now 2) }
    {
        low_half(self.words[2])
    }

    // How much memory a task is to have.
    pub fn mem(self) -> u32
        ensures { result ≡ low (at self.entry.words.now 3) }
    {
        low_half(self.words[3])
    }

    fn tags(self) -> [u32; 8]
        ensures { result ≡ map low (take 8 (drop 6 self.entry.words.now)) }
    {
        std::array::from_fn(|a| low_half(self.words[6 + a]))
    }

    pub fn spec(self) -> Spec
        ensures { spec_of result ≡ spec_from_lem self.entry.words.now }
    {
        Spec {
            image: low_half(self.words[1]),
            cpu: self.cpu(),
            mem: self.mem(),
            apart: self.words[4] != 0,
            count: self.words[5].min(8) as u8,
            tags: self.tags(),
        }
    }
}
