// Jobs and machines as words.
ghost use Rattle.std.specs.Prelude.{◌≡◌, ℕ, ◌+◌, ◌*◌, ◌%◌, ◌<◌, ◌≤◌, map, length, take};
ghost use Rattle.model.specs.Calls.{new_machine};
ghost use Rattle.jobs.specs.Rows.{at};
ghost use Rattle.jobs.specs.Tables.{job_from_lem, machine_from};
ghost use Rattle.jobs.specs.Values.{job_of, job_words_lem, machine_words, version_word_lem};

use crate::ids::Version;
use crate::job::Job;
use crate::machine::Machine;

// A version as a word that is no hole.
fn version_word(version: Version) -> u64
    ensures { result ≡ version_word_lem version.0 }
{
    match version.0 {
        0 => 4_294_967_296,
        n => u64::from(n),
    }
}

// The words of a job's row.
fn job_words(job: Job) -> [u64; 26]
    ensures { result ≡ job_words_lem job }
{
    let spec = job.spec;
    let mut row = [0; 26];
    row[..6].copy_from_slice(&[
        version_word(job.version),
        u64::from(spec.image),
        u64::from(spec.cpu),
        u64::from(spec.mem),
        u64::from(spec.apart),
        u64::from(spec.count),
    ]);
    row[6..14].copy_from_slice(&spec.tags.map(|tag| u64::from(tag)));
    row[14] = u64::from(job.name.len);
    row[15..23].copy_from_slice(&job.name.words);
    row[23] = u64::from(job.count);
    row[24] = u64::from(job.least);
    row[25] = u64::from(job.most);
    row
}

// A job's row, which stands for that job.
pub fn encode_job(job: Job) -> [u64; 26]
    ensures back { job_from_lem result ≡ job_of job }
    ensures there { 0 < at result 0 }
{
    job_words(job)
}

// The row of a machine that is new: open, and nothing heard of it.
pub fn encode_machine(m: Machine) -> [u64; 24]
    ensures there { at result 0 ≡ 1 }
    ensures back { machine_from result 0 ≡ new_machine m.num.0 m.cpu m.mem (take m.count m.tags) }
{
    let mut row = [0; 24];
    row[..8].copy_from_slice(&[
        1,
        u64::from(m.num.0),
        u64::from(m.cpu),
        u64::from(m.mem),
        1,
        0,
        0,
        u64::from(m.count),
    ]);
    row[8..].copy_from_slice(&m.tags.map(|tag| u64::from(tag)));
    row
}
