// What is wanted, tested and as a job.
ghost use Rattle.calls.specs.Meaning.{like_of};
ghost use Rattle.calls.specs.Wanted.{SpecAs, JobAs};

use crate::call::{Likeness, Wanted};
use crate::names::name_of;
use jobs::ids::Version;
use jobs::job::Job;
use jobs::spec::Spec;
use octets::field::filled;

// The spec that this is, if it is in range.
pub fn spec_of(like: Likeness) -> Option<Spec>
    ensures { SpecAs (like_of like.entry) result }
{
    if like.cpu > 1_000_000 || like.mem > 1_000_000 || like.tags.len() / 4 > 8 {
        return None;
    }
    Some(Spec {
        image: like.image,
        cpu: like.cpu,
        mem: like.mem,
        apart: like.apart,
        count: (like.tags.len() / 4) as u8,
        tags: filled(like.tags),
    })
}

// The first version of the job that is wanted, if all is in range.
pub fn job_of(wanted: Wanted) -> Option<Job>
    ensures { JobAs wanted.entry result }
{
    let name = name_of(wanted.name)?;
    let spec = spec_of(wanted.like)?;
    if wanted.least > wanted.count || wanted.count > wanted.most || wanted.most > 256 {
        return None;
    }
    if wanted.least == wanted.count && wanted.count == wanted.most && wanted.count != 0 {
        return None;
    }
    Some(Job {
        name,
        version: Version(1),
        spec,
        count: wanted.count,
        least: wanted.least,
        most: wanted.most,
    })
}
