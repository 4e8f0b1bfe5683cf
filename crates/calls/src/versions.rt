// Comparing what a job is to be like with what it is like, and the version that it gets.
ghost use Rattle.std.specs.Prelude.{◌≡◌, ℕ, ◌≤◌, length, take};
ghost use Rattle.model.specs.Lists.{same};
ghost use Rattle.model.specs.Calls.{same_spec_lem};
ghost use Rattle.jobs.specs.Tables.{spec_from_lem, version_from_lem};
ghost use Rattle.jobs.specs.Values.{spec_of};
ghost use Rattle.calls.specs.Versions.{NextAs};

use jobs::ids::Version;
use jobs::rows::Kind;
use jobs::spec::Spec;

// The tags that count.
fn tags(spec: &Spec) -> &[u32]
    ensures { result.now ≡ (spec_of spec.now).tags }
{
    &spec.tags[..usize::from(spec.count)]
}

// Is that the spec in a kind. (No derive: it would compare tags that do not count.)
pub fn same_spec(kind: Kind, spec: &Spec) -> bool
    ensures { result ≡ same_spec_lem (spec_of spec.now) (spec_from_lem kind.entry.words.now) }
{
    let there = kind.spec();
    (spec.image, spec.cpu, spec.mem, tags(spec), spec.apart)
        == (there.image, there.cpu, there.mem, tags(&there), there.apart)
}

// The version of the job of that kind once its spec is this one, if there is one left.
pub fn next_version(kind: Kind, spec: &Spec) -> Option<Version>
    ensures { NextAs (same_spec_lem (spec_of spec.now) (spec_from_lem kind.entry.words.now)) (version_from_lem kind.entry.words.now) result }
{
    let version = kind.version();
    if same_spec(kind, spec) {
        return Some(version);
    }
    let next = version.0.checked_add(1)?;
    Some(Version(next))
}
