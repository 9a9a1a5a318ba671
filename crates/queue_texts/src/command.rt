// The commands of a script, a line each.
ghost use Rattle.pq_types.specs.Asked.{Request as RequestSeen};
ghost use Rattle.std.specs.Prelude.{◌≡◌, ℕ, List, IfOk, IfErr, IfSome, IfNone, Ok, Err};
ghost use Rattle.queue_texts.specs.Command.{PushesText, Spells, IsRefusedFor, IsTheCommand, script_code};

use crate::item_text::read_item;
use crate::number::NumberError;
use pq_types::{Item, Part, Request};
use thiserror::Error;

/// Why a line of a script is refused.
#[derive(Clone, Copy, Debug, PartialEq, Eq, Error)]
pub enum ScriptError {
    /// The line is neither `pop` nor `least`, and doesn't begin with `push `.
    #[error("unknown command")]
    UnknownCommand,
    /// The line is `push ` and one number, or two with one space between, and one of them is
    /// above 4,294,967,295, or, for a wide item, above 18,446,744,073,709,551,615.
    #[error("item out of range")]
    ItemOutOfRange,
    /// The line begins with `push `, and what follows isn't one number, or two with one space
    /// between.
    #[error("not a number")]
    NotANumber,
}

impl ScriptError {
    /// The number of this refusal: 20, 21 or 22.
    pub fn code(&self) -> u32
        ensures { result ≡ script_code self.now }
    {
        match self {
            ScriptError::UnknownCommand => 20,
            ScriptError::ItemOutOfRange => 21,
            ScriptError::NotANumber => 22,
        }
    }
}

// The text behind `push `, where the line begins so.
pub(crate) fn pushed_text(line: &[u8]) -> Option<&[u8]>
    ensures some { IfSome result (λ text. PushesText line.now text.now) }
    ensures none { IfNone result ((text : List ℕ) → ¬ (PushesText line.now text)) }
{
    match line {
        [b'p', b'u', b's', b'h', b' ', text @ ..] => Some(text),
        _ => None,
    }
}

// The push of the item behind `push `.
fn read_push<P: Part>(text: &[u8]) -> Result<Request<Item<P>>, ScriptError>
    ensures { (line : List ℕ) → PushesText line text.now → IsTheCommand P.wide line result }
{
    match read_item(text) {
        Ok(item) => Ok(Request::Push(item)),
        Err(NumberError::NotANumber) => Err(ScriptError::NotANumber),
        Err(NumberError::OutOfRange) => Err(ScriptError::ItemOutOfRange),
    }
}

/// The request that a line without its line end spells: `pop`, `least`, `push P V`, or `push P`,
/// which pushes the value 0. P and V are one or more decimal digits, and in the range of the item's
/// width. Leading zeros are read; a sign, a further space or a capital letter isn't.
pub fn read_command<P: Part>(line: &[u8]) -> Result<Request<Item<P>>, ScriptError>
    ensures ok { IfOk result (λ request. Spells P.wide line.now request) }
    ensures err { IfErr result (λ error. IsRefusedFor P.wide line.now error) }
    // Nothing that spells a request is refused, and no line is refused for two reasons.
    ensures every_request { (request : RequestSeen) → Spells P.wide line.now request → result ≡ Ok request }
    ensures every_refusal { (error : ScriptError) → IsRefusedFor P.wide line.now error → result ≡ Err error }
{
    if let Some(text) = pushed_text(line) {
        return read_push(text);
    }
    match line {
        b"pop" => Ok(Request::Pop),
        b"least" => Ok(Request::Least),
        _ => Err(ScriptError::UnknownCommand),
    }
}
