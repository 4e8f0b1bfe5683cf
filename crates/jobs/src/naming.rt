// Names in rows.
ghost use Rattle.std.specs.Prelude.{◌≡◌, ℕ, ◌+◌, ◌-◌, ◌*◌, ◌<◌, ◌≤◌, min, List, length, ◌==◌, slice_index};
ghost use Rattle.model.specs.Lists.{same, some};
ghost use Rattle.model.specs.State.{is_job};
ghost use Rattle.jobs.specs.Tables.{byte_at, job_slot, name_from_lem};
ghost use Rattle.jobs.specs.Values.{name_of};

use crate::name::Name;
use crate::rows::{JobRow, Kind};

// A name by its bytes, whether it stands in words or came as it is, of any length.
pub trait Spelled {
    ghost spelled: { Self → List ℕ };

    fn len(&self) -> usize
        ensures { result ≡ length (spelled self.now) };

    fn byte(&self, k: usize) -> u8
        requires { k < length (spelled self.now) }
        ensures { result ≡ slice_index (spelled self.now) k };
}

impl Spelled for Name {
    ghost spelled = { name_of };

    fn len(&self) -> usize {
        usize::from(self.len)
    }

    fn byte(&self, k: usize) -> u8 {
        byte_at(&self.words, k)
    }
}

impl<'a> Spelled for &'a [u8] {
    ghost spelled = { λ name. name.now };

    fn len(&self) -> usize {
        let name: &[u8] = self;
        name.len()
    }

    fn byte(&self, k: usize) -> u8 {
        self[k]
    }
}

// Byte `k` of eight words.
fn byte_at(words: &[u64], k: usize) -> u8
    requires long { 8 ≤ length words.now }
    requires within { k < 64 }
    ensures { result ≡ byte_at words.now k }
{
    words[k / 8].to_be_bytes()[k % 8]
}

impl Kind<'_> {
    // Is that the job's name.
    pub fn is_named<N: Spelled>(self, name: &N) -> bool
        ensures { result ≡ same (N.Spelled.spelled name.now) (name_from_lem self.entry.words.now) }
    {
        let words = &self.words[15..23];
        name.len() as u64 == self.words[14].min(64)
            && (0..name.len()).all(
                |k|
                    requires { (8 ≤ length words.now) × (k < 64) × (k < length (N.Spelled.spelled name.now)) }
                    ensures { result ≡ (slice_index (N.Spelled.spelled name.entry.now) k == byte_at words.entry.now k) }
                { name.byte(k) == byte_at(words, k) },
            )
    }

    // The job's name.
    pub fn name(self) -> Name
        ensures { name_of result ≡ name_from_lem self.entry.words.now }
    {
        let mut words = [0; 8];
        words.copy_from_slice(&self.words[15..]);
        Name {
            len: self.words[14].min(64) as u8,
            words,
        }
    }
}

impl JobRow<'_> {
    // Is there a job of that name.
    pub fn is_named(self, name: &Name) -> bool
        ensures { result ≡ some (is_job (name_of name.now)) (job_slot self.entry.words.now) }
    {
        !self.is_hole() && self.kind().is_named(name)
    }
}
