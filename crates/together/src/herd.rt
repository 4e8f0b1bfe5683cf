// The herd's code, as the programs call it: what it does is a move of the world as it really runs, of which all that is shown holds.
ghost use Rattle.std.specs.Prelude.{◌≡◌, ℕ, true, List, take};
ghost use Rattle.model.specs.Lines.{core_kind, herd_on_lines};
ghost use Rattle.model.specs.Memory.{Happens, asleep, awake};
ghost use Rattle.model.specs.State.{State};
ghost use Rattle.model.specs.Ways.{RightWays, WaysRun, WaysRunRight};
ghost use Rattle.model.specs.Wire.{Bytes};
ghost use Rattle.device.specs.Follows.{Ended};
ghost use Rattle.lines.specs.Held.{Holds};
ghost use Rattle.lines.specs.Overlong.{AreBytes};
ghost use Rattle.serving.specs.Herd.{Awake, Tells, held_by, herd_code};
ghost use Rattle.serving.specs.Serves.{Serves};
ghost use Rattle.together.specs.Moves.{HerdAnswers, HerdWakes};
ghost use Rattle.together.specs.Now.{HoldsAlways};

use calls::mind::Mind;
use device::kept::{Dark, Kept};
use lines::line::Line;
use lines::reply::Reply;

// Answers a line into the reply, and keeps what has changed; or the power fails in that, and there is no answer.
pub fn answer<K: Kept>(
    words: &mut K,
    mind: &mut Mind,
    line: &Line,
    reply: &mut Reply,
) -> Result<(), Dark>
    ensures right { RightWays (herd_on_lines core_kind) herd_code Tells Awake }
    ensures runs { WaysRunRight (herd_on_lines core_kind) herd_code }
    ensures serves { (bytes : List ℕ) → Holds line.now.bytes line.now.count bytes → AreBytes bytes → Serves bytes (held_by mind.old) (K.word words.old) result (record { reply = take reply.exit.now.len reply.exit.now.bytes; mind = held_by mind.new }) (K.word words.new) }
    ensures moves { (bytes : List ℕ) → Holds line.now.bytes line.now.count bytes → AreBytes bytes → HerdAnswers bytes (held_by mind.old) (K.word words.old) result (record { reply = take reply.exit.now.len reply.exit.now.bytes; mind = held_by mind.new }) (K.word words.new) }
    ensures always { HoldsAlways }
{
    serving::answer::answer(words, mind, line, reply)
}

// Any words wake as some mind; it only loads. False where the words are not sound: no herd stored them, and the mind is blank.
pub fn wake<K: Kept>(words: &K, mind: &mut Mind) -> bool
    ensures follows { Ended herd_code.wakes (K.word words.now) (held_by mind.new) (K.word words.now) }
    ensures runs { (es : List (Happens Bytes Bytes)) → WaysRun herd_code es (asleep (K.word words.now)) → WaysRun herd_code es (awake (held_by mind.new) (K.word words.now)) }
    ensures tells { (s : State) → Tells (K.word words.now) s → Awake (held_by mind.new) (K.word words.now) s }
    ensures sound { (s : State) → Tells (K.word words.now) s → result ≡ true }
    ensures moves { HerdWakes (K.word words.now) (held_by mind.new) }
{
    serving::wake::wake(words, mind)
}
