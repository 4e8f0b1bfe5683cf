// The answer to a line, over kept words: the function that the programs call.
ghost use Rattle.std.specs.Prelude.{◌≡◌, ℕ, ◌*◌, ◌<◌, not, List, length, slice_index, take};
ghost use Rattle.model.specs.Lines.{core_kind, herd_on_lines};
ghost use Rattle.model.specs.Ways.{RightWays, WaysRunRight};
ghost use Rattle.calls.specs.Handled.{is_quiet};
ghost use Rattle.device.specs.Follows.{Follows};
ghost use Rattle.device.specs.Service.{keeping};
ghost use Rattle.lines.specs.Held.{Holds};
ghost use Rattle.lines.specs.Overlong.{AreBytes};
ghost use Rattle.serving.specs.Herd.{Awake, Tells, held_by, herd_code};
ghost use Rattle.serving.specs.Serves.{Serves};

use crate::respond::respond;
use calls::answer::Answer;
use calls::mind::Mind;
use device::halves::keep;
use device::kept::{Dark, Kept};
use lines::line::Line;
use lines::reply::{Reply, write};

// May home words have changed: not where the call was turned away, or only showed.
fn changes(answer: &Answer) -> bool
    ensures { result ≡ not (is_quiet answer.now) }
{
    match *answer {
        Answer::Yes | Answer::Run(_) => true,
        Answer::TurnedAway(_) | Answer::Lines(_) => false,
    }
}

// Keeps the home words where they may have changed; and that each is of 64 bits is said here, where their type is at hand.
fn keep_home<K: Kept>(words: &mut K, home: &[u64], changed: bool) -> Result<(), Dark>
    requires { 2 * length home.now < 262144 }
    ensures follows { Follows (keeping changed home.now) (K.word words.old) result (tt {0}) (K.word words.new) }
    ensures small { (i : ℕ) → slice_index home.now i < 18446744073709551616 }
{
    keep(words, home, changed)
}

// Answers a line into the reply, and keeps what has changed; or the power fails in that, and there is no answer.
pub fn answer<K: Kept>(
    words: &mut K,
    mind: &mut Mind,
    line: &Line,
    reply: &mut Reply,
) -> Result<(), Dark>
    ensures right { RightWays (herd_on_lines core_kind) herd_code Tells Awake }
    ensures runs { WaysRunRight (herd_on_lines core_kind) herd_code }
    ensures serves { (bytes : List ℕ) → Holds line.now.bytes line.now.count bytes → AreBytes bytes → Serves bytes (held_by mind.old) (K.word words.old) result (record { reply = take reply.exit.now.len reply.exit.now.bytes; mind = held_by mind.new }) (K.word words.new) }
{
    let said = respond(mind, line);
    write(reply, line.tag(), &mind.home, &mind.live, &said);
    keep_home(words, &mind.home, changes(&said))
}
