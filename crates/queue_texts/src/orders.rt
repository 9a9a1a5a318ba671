// The lines of `flatpq walk`.
ghost use Rattle.std.specs.Prelude.{◌≡◌, ℕ, List, IfOk, IfErr, IfSome, IfNone};
ghost use Rattle.queue_texts.specs.Orders.{BeginsWith, SpellsOrder, IsNoOrderFor, order_code};
ghost use Rattle.queue_texts.specs.declared.orders.Move.{Move};
ghost use Rattle.queue_texts.specs.declared.orders.Verb.{Verb};
ghost use Rattle.queue_texts.specs.declared.orders.Verb.TheVariants.{Make};

use crate::number::{NumberError, read_number};
use thiserror::Error;

/// The kinds of scan that a comer can make.
#[derive(Clone, Copy)]
pub enum ScanKind {
    /// It reads the doors diagonal by diagonal.
    Diagonals,
    /// It reads the doors to which closed doors lead.
    Trails,
}

/// A comer's move on the grid, one single read or write.
#[derive(Clone, Copy)]
pub enum Move {
    /// Its next step.
    Step,
    /// The next door of its scan.
    Scan,
}

/// What a comer is to do.
#[derive(Clone, Copy)]
pub enum Verb {
    /// Take part.
    Comer,
    /// Make this move.
    Make(Move),
}

/// What a line of a walk asks for, of the comer with this id.
#[derive(Clone, Copy)]
pub struct Order {
    pub verb: Verb,
    pub id: u64,
}

/// Why a line of a walk asks for nothing.
#[derive(Clone, Copy, Debug, PartialEq, Eq, Error)]
pub enum OrderError {
    /// It doesn't begin with one of the three words and a space.
    #[error("unknown command")]
    UnknownCommand,
    /// What follows the word isn't one or more digits.
    #[error("not a number")]
    NotANumber,
    /// The id is 18,446,744,073,709,551,616 or more.
    #[error("id out of range")]
    IdOutOfRange,
}

impl OrderError {
    /// The number of this refusal: 20, 22 or 28.
    pub fn code(&self) -> u32
        ensures { result ≡ order_code self.now }
    {
        match self {
            OrderError::UnknownCommand => 20,
            OrderError::NotANumber => 22,
            OrderError::IdOutOfRange => 28,
        }
    }
}

// The move that the line begins with, and the text behind it.
fn move_of(line: &[u8]) -> Option<(Move, &[u8])>
    ensures some { IfSome result (λ found. BeginsWith line.now (Make found.0) found.1.now) }
    ensures none { IfNone result ((made : Move) (text : List ℕ) → ¬ (BeginsWith line.now (Make made) text)) }
{
    match line {
        [b's', b't', b'e', b'p', b' ', text @ ..] => Some((Move::Step, text)),
        [b's', b'c', b'a', b'n', b' ', text @ ..] => Some((Move::Scan, text)),
        _ => None,
    }
}

// The verb that the line begins with, and the text behind it.
fn verb_of(line: &[u8]) -> Option<(Verb, &[u8])>
    ensures some { IfSome result (λ found. BeginsWith line.now found.0 found.1.now) }
    ensures none { IfNone result ((verb : Verb) (text : List ℕ) → ¬ (BeginsWith line.now verb text)) }
{
    if let [b'c', b'o', b'm', b'e', b'r', b' ', text @ ..] = line {
        return Some((Verb::Comer, text));
    }
    let (made, text) = move_of(line)?;
    Some((Verb::Make(made), text))
}

/// The order that a line without its line end spells: `comer ID`, `step ID` or `scan ID`, the id
/// one or more decimal digits.
pub fn read_order(line: &[u8]) -> Result<Order, OrderError>
    ensures ok { IfOk result (λ order. SpellsOrder line.now order) }
    ensures err { IfErr result (λ error. IsNoOrderFor line.now error) }
{
    let Some((verb, text)) = verb_of(line) else {
        return Err(OrderError::UnknownCommand);
    };
    match read_number(text) {
        Ok(id) => Ok(Order { verb, id }),
        Err(NumberError::NotANumber) => Err(OrderError::NotANumber),
        Err(NumberError::OutOfRange) => Err(OrderError::IdOutOfRange),
    }
}
