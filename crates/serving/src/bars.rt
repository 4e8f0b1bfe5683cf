// What is turned away before a call is read.
ghost use Rattle.serving.specs.Bars.{BarredAs};

use calls::answer::Refusal;
use lines::kind::Kind;

// Why a call of this kind is turned away unread, if it is: it is not built yet, or no time was told. Any byte may stand for a kind.
pub fn barred(kind: u8, time: u64) -> Option<Refusal>
    ensures { BarredAs kind time result }
{
    match Kind::of(kind) {
        Some(Kind::End | Kind::Close | Kind::Reopen | Kind::Forget) => Some(Refusal::NotBuilt),
        Some(Kind::Time) => None,
        _ if time == 0 => Some(Refusal::NoTime),
        _ => None,
    }
}
