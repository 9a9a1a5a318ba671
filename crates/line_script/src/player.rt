// What the lines of a script mean.
ghost use Rattle.std.specs.Prelude.{◌≡◌, ℕ, ◌<◌, ◌≤◌, length, Ok, OnOk, IfErr};
ghost use Rattle.line_script.specs.Script.{Kind, PlaysInto, StopsInto, StopsEnd};

use crate::error::RunError;
use crate::lines::LINE_ROOM;
use std::alloc::Allocator;

/// What the lines of a script mean: the player's state changes from line to line.
pub trait Player: Drop {
    /// Why a line, or the end of the script, is refused.
    type Refusal: Copy;

    /// How long lines may be, which are played and how, and which are refused.
    ghost kind: { Kind Self Self.Refusal };

    /// How many bytes a line may have, without its line feed.
    fn longest() -> usize
        ensures value { result ≡ kind.longest }
        ensures room { result ≤ LINE_ROOM };

    /// Plays a line that isn't empty, whose number is given, and puts its text behind `out`.
    fn play<A: Allocator>(
        &mut self,
        number: u64,
        line: &[u8],
        out: &mut Vec<u8, A>,
    ) -> Result<(), RunError<Self::Refusal>>
        requires filled { 0 < length line.now }
        ensures ok { OnOk result (PlaysInto kind self.old line.now out.old.items out.new.items self.new) }
        ensures err { IfErr result (λ e. StopsInto kind self.old number line.now e out.old.items out.new.items) };

    /// Meets the end of the script, which changes nothing.
    fn end(&mut self) -> Result<(), RunError<Self::Refusal>>
        ensures unchanged { self.new ≡ self.old }
        ensures ok { OnOk result (kind.ends self.old (Ok tt)) }
        ensures err { IfErr result (λ e. StopsEnd kind self.old e) };
}
