// Waking from kept words.
ghost use Rattle.std.specs.Prelude.{◌≡◌, ℕ, true, List, length, if◌then◌else◌};
ghost use Rattle.model.specs.Memory.{Happens, asleep, awake};
ghost use Rattle.model.specs.State.{State};
ghost use Rattle.model.specs.Ways.{WaysRun};
ghost use Rattle.model.specs.Wire.{Bytes};
ghost use Rattle.device.specs.Follows.{Ended};
ghost use Rattle.device.specs.Service.{zeros};
ghost use Rattle.jobs.specs.Layout.{home_words_lem};
ghost use Rattle.calls.specs.Sound.{sound_words};
ghost use Rattle.serving.specs.Herd.{Awake, Tells, held_by, herd_code};

use calls::mind::Mind;
use calls::sound::is_sound;
use device::halves;
use device::kept::Kept;
use jobs::dark::clear;

// Words that are not sound are cleared; whether they were sound.
fn clear_unsound(home: &mut [u64]) -> bool
    requires { length home.old ≡ home_words_lem }
    ensures sound { result ≡ sound_words home.old }
    ensures words { home.new ≡ (if sound_words home.old then home.old else zeros home_words_lem) }
{
    let sound = is_sound(home);
    if !sound {
        clear(home);
    }
    sound
}

// Any words wake as some mind; it only loads. False where the words are not sound: no herd stored them, and the mind is blank.
// (No `Result`, here and above: damaged words wake too, so there is no error.)
pub fn wake<K: Kept>(words: &K, mind: &mut Mind) -> bool
    ensures follows { Ended herd_code.wakes (K.word words.now) (held_by mind.new) (K.word words.now) }
    ensures runs { (es : List (Happens Bytes Bytes)) → WaysRun herd_code es (asleep (K.word words.now)) → WaysRun herd_code es (awake (held_by mind.new) (K.word words.now)) }
    ensures tells { (s : State) → Tells (K.word words.now) s → Awake (held_by mind.new) (K.word words.now) s }
    ensures sound { (s : State) → Tells (K.word words.now) s → result ≡ true }
{
    halves::wake(words, &mut mind.home);
    let sound = clear_unsound(&mut mind.home);
    clear(&mut mind.live);
    mind.time = 0;
    sound
}
