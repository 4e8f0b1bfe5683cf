// The answer to a line, in memory.
ghost use Rattle.std.specs.Prelude.{◌≡◌, ℕ, List};
ghost use Rattle.model.specs.Lines.{call_in};
ghost use Rattle.lines.specs.Held.{Holds};
ghost use Rattle.lines.specs.Overlong.{AreBytes};
ghost use Rattle.serving.specs.Herd.{held_by};
ghost use Rattle.serving.specs.Responds.{Responds};

use crate::bars::barred;
use calls::answer::{Answer, Refusal};
use calls::mind::Mind;
use lines::line::Line;
use lines::read::read;

// A line that is longer than is held is no call that could be done. (No `?`: an answer is no `Result`.)
pub fn respond<'a>(mind: &mut Mind, line: &'a Line) -> Answer<'a>
    ensures { (bytes : List ℕ) → Holds line.now.bytes line.now.count bytes → AreBytes bytes → Responds (call_in bytes) (held_by mind.old) result (held_by mind.new) }
{
    if let Some(why) = barred(line.kind(), mind.time) {
        return Answer::TurnedAway(why);
    }
    if line.is_longer() {
        return Answer::TurnedAway(Refusal::Malformed);
    }
    let Some(call) = read(line.call()) else {
        return Answer::TurnedAway(Refusal::Malformed);
    };
    mind.act(call)
}
