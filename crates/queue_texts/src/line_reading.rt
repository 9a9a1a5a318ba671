// The text of a journal line, read back.
ghost use Rattle.pq_types.specs.Item.{Item as ItemSeen};
ghost use Rattle.pq_types.specs.Asked.{Line as LineSeen};
ghost use Rattle.std.specs.Prelude.{◌≡◌, ◌<◌, ◌≤◌, ◌^◌, ◌↔◌, ◌++◌, codes, ℕ, List, [], IfOk, IfErr, IfSome, IfNone, IsTrue, Ok, Err};
ghost use Rattle.std.specs.Str.Parse.{IsNumeral, digits_value};
ghost use Rattle.pq_types.specs.Asked.{Request};
ghost use Rattle.pq_types.specs.Asked.{Reply};
ghost use Rattle.pq_types.specs.Asked.{Operation as OperationSeen};
ghost use Rattle.pq_types.specs.Item.{IsItemOf, bound_of};
ghost use Rattle.pq_types.specs.Control.{kind_of, outcome_of};
ghost use Rattle.queue_texts.specs.LineText.{Leads, LeadsAll, LeadsBoth, SpellsBoth, SpellsReply, SpellsReplyTo};
ghost use Rattle.queue_texts.specs.LineText.{AsksFirst, SaysFirst, SpellsLine, IsInRange, IsOperationInRange, MayReply, MayReplyTo};
ghost use Rattle.queue_texts.specs.LineText.{IsLineText, IsNoLineFor, numbered, line_code};
ghost use Rattle.queue_texts.specs.LineShape.{capped, TellsItem, TellsNone, AsksNone, AreParts};
ghost use Rattle.queue_texts.specs.LineShape.{AreNone, HasOperation, HasReply, HasRequest, HasShape};

use crate::command::pushed_text;
use crate::item_text::{greatest, split_at_space};
use crate::number::{NumberError, read_number};
use pq_types::{GREATEST_NUMBER, Item, Kind, Line, Operation, Outcome, Part};
use thiserror::Error;

/// Why a text is no journal line.
#[derive(Clone, Copy, Debug, PartialEq, Eq, Error)]
pub enum LineError {
    /// It isn't three numbers, an operation and, but for a shut, a reply, with one space between.
    #[error("no journal line")]
    UnknownWord,
    /// One of its numbers is out of its range: of the line's number and the serial 1 to
    /// 72,057,594,037,927,936, of the place 0 to 65,535, of an item's parts 0 to 4,294,967,295,
    /// or, where items are wide, to 18,446,744,073,709,551,615, as of a ticket; the new priority of a move is as an item's.
    #[error("number out of range")]
    OutOfRange,
    /// No such operation has such a reply.
    #[error("no such reply")]
    NoSuchReply,
}

impl LineError {
    /// The number of this refusal: 32, 33 or 34.
    pub fn code(&self) -> u32
        ensures { result ≡ line_code self.now }
    {
        match self {
            LineError::UnknownWord => 32,
            LineError::OutOfRange => 33,
            LineError::NoSuchReply => 34,
        }
    }
}

/// The two numbers of an item, of which those from 2^64 on are told as 2^64.
#[derive(Clone, Copy)]
struct Parts {
    priority: u128,
    value: u128,
}

/// The number that stands for each one that has more than 64 bits: the first of them.
const BEYOND: u128 = 18_446_744_073_709_551_616;

/// Where there is no item.
const NO_PARTS: Parts = Parts {
    priority: 0,
    value: 0,
};

/// The operation that a text says, whether or not its numbers are in their ranges.
#[derive(Clone, Copy)]
enum Named {
    /// A request of this kind, and the numbers of its item.
    Asked(Kind, Parts),
    /// The removal of the item that has this ticket.
    Remove(u128),
    /// The move of the item that has this ticket to this priority.
    Move(u128, u128),
    /// That the queue is shut.
    Shut,
}

/// What a text spells, whether or not its numbers are in their ranges. Those from 2^64 on are told as
/// 2^64.
#[derive(Clone, Copy)]
struct Shape {
    number: u128,
    place: u128,
    serial: u128,
    named: Named,
    outcome: Outcome,
    told: Parts,
}

// The number that the text spells, of any size.
fn read_figure(text: &[u8]) -> Option<u128>
    ensures some { IfSome result (λ f. IsNumeral 10 text.now × (f ≡ capped (digits_value 10 text.now))) }
    ensures none { IfNone result (¬ (IsNumeral 10 text.now)) }
{
    match read_number(text) {
        Ok(number) => Some(u128::from(number)),
        Err(NumberError::OutOfRange) => Some(BEYOND),
        Err(NumberError::NotANumber) => None,
    }
}

// The number that the text begins with, and what follows a space.
fn lead(text: &[u8]) -> Option<(u128, &[u8])>
    ensures some { IfSome result (λ found. (n : ℕ) × Leads text.now n found.1.now × (found.0 ≡ capped n)) }
    ensures none { IfNone result ((n : ℕ) (rest : List ℕ) → ¬ (Leads text.now n rest)) }
{
    let (digits, rest) = split_at_space(text)?;
    let number = read_figure(digits)?;
    Some((number, rest))
}

// The two numbers that the text is.
fn read_parts(text: &[u8]) -> Option<Parts>
    ensures some { IfSome result (λ parts. (x : ItemSeen) × SpellsBoth text.now x.priority x.value × AreParts parts x) }
    ensures none { IfNone result ((x : ItemSeen) → ¬ (SpellsBoth text.now x.priority x.value)) }
{
    let (priority, rest) = lead(text)?;
    let value = read_figure(rest)?;
    Some(Parts { priority, value })
}

// The item that the text says behind `got ` or `least `, and which of these it is.
fn told_item(text: &[u8]) -> Option<(Outcome, &[u8])>
    ensures some { IfSome result (λ found. TellsItem text.now found.0 found.1.now) }
    ensures none { IfNone result ((outcome : Outcome) (item : List ℕ) → ¬ (TellsItem text.now outcome item)) }
{
    match text {
        [b'g', b'o', b't', b' ', item @ ..] => Some((Outcome::Got, item)),
        [b'l', b'e', b'a', b's', b't', b' ', item @ ..] => Some((Outcome::Least, item)),
        _ => None,
    }
}

// The reply without an item that the text says.
fn plain_reply(text: &[u8]) -> Option<Outcome>
    ensures some { IfSome result (λ outcome. TellsNone text.now outcome) }
    ensures none { IfNone result ((outcome : Outcome) → ¬ (TellsNone text.now outcome)) }
{
    match text {
        b"pushed" => Some(Outcome::Pushed),
        b"empty" => Some(Outcome::Empty),
        _ => None,
    }
}

// The reply that the text says.
fn read_reply(text: &[u8]) -> Option<(Outcome, Parts)>
    ensures some { IfSome result (λ found. (reply : Reply) × SpellsReply text.now reply × HasReply found.0 found.1 reply) }
    ensures none { IfNone result ((reply : Reply) → ¬ (SpellsReply text.now reply)) }
{
    if let Some((outcome, item)) = told_item(text) {
        let parts = read_parts(item)?;
        return Some((outcome, parts));
    }
    let outcome = plain_reply(text)?;
    Some((outcome, NO_PARTS))
}

// The reply to this operation that the text says.
fn read_told(named: Named, text: &[u8]) -> Option<(Outcome, Parts)>
    ensures some { IfSome result (λ found. (o : OperationSeen) → HasOperation named o
        → (reply : Reply) × SpellsReplyTo o text.now reply × HasReply found.0 found.1 reply) }
    ensures none { IfNone result ((o : OperationSeen) → HasOperation named o → (reply : Reply) → ¬ (SpellsReplyTo o text.now reply)) }
{
    match named {
        Named::Shut => {
            if text.is_empty() {
                Some((Outcome::Empty, NO_PARTS))
            } else {
                None
            }
        }
        _ => read_reply(text),
    }
}

// What follows `pop ` or `least `, and which of these it is.
fn plain_request(text: &[u8]) -> Option<(Kind, &[u8])>
    ensures some { IfSome result (λ found. AsksNone text.now found.0 found.1.now) }
    ensures none { IfNone result ((kind : Kind) (rest : List ℕ) → ¬ (AsksNone text.now kind rest)) }
{
    match text {
        [b'p', b'o', b'p', b' ', rest @ ..] => Some((Kind::Pop, rest)),
        [b'l', b'e', b'a', b's', b't', b' ', rest @ ..] => Some((Kind::Least, rest)),
        _ => None,
    }
}

// The two numbers that the text begins with, and what follows a space.
fn lead_both(text: &[u8]) -> Option<(u128, u128, &[u8])>
    ensures some { IfSome result (λ found. (m n : ℕ) × LeadsBoth text.now m n found.2.now
        × (found.0 ≡ capped m) × (found.1 ≡ capped n)) }
    ensures none { IfNone result ((m n : ℕ) (rest : List ℕ) → ¬ (LeadsBoth text.now m n rest)) }
{
    let (first, second_on) = lead(text)?;
    let (second, rest) = lead(second_on)?;
    Some((first, second, rest))
}

// The numbers of an item that the text begins with, and what follows a space.
fn lead_parts(text: &[u8]) -> Option<(Parts, &[u8])>
    ensures some { IfSome result (λ found.
        (x : ItemSeen) × LeadsBoth text.now x.priority x.value found.1.now × AreParts found.0 x) }
    ensures none { IfNone result ((x : ItemSeen) (rest : List ℕ) → ¬ (LeadsBoth text.now x.priority x.value rest)) }
{
    let (priority, value, rest) = lead_both(text)?;
    Some((Parts { priority, value }, rest))
}

// The request that the text says first, and what follows a space.
fn read_request(text: &[u8]) -> Option<(Kind, Parts, &[u8])>
    ensures some { IfSome result (λ found.
        (request : Request) × AsksFirst text.now request found.2.now × HasRequest found.0 found.1 request) }
    ensures none { IfNone result ((request : Request) (rest : List ℕ) → ¬ (AsksFirst text.now request rest)) }
{
    if let Some(item) = pushed_text(text) {
        let (parts, rest) = lead_parts(item)?;
        return Some((Kind::Push, parts, rest));
    }
    let (kind, rest) = plain_request(text)?;
    Some((kind, NO_PARTS, rest))
}

// The text behind `remove `, where the text begins so.
fn removed_text(text: &[u8]) -> Option<&[u8]>
    ensures some { IfSome result (λ number. text.now ≡ codes "remove " ++ number.now) }
    ensures none { IfNone result ((number : List ℕ) → ¬ (text.now ≡ codes "remove " ++ number)) }
{
    match text {
        [b'r', b'e', b'm', b'o', b'v', b'e', b' ', number @ ..] => Some(number),
        _ => None,
    }
}

// The text behind `move `, where the text begins so.
fn moved_text(text: &[u8]) -> Option<&[u8]>
    ensures some { IfSome result (λ numbers. text.now ≡ codes "move " ++ numbers.now) }
    ensures none { IfNone result ((numbers : List ℕ) → ¬ (text.now ≡ codes "move " ++ numbers)) }
{
    match text {
        [b'm', b'o', b'v', b'e', b' ', numbers @ ..] => Some(numbers),
        _ => None,
    }
}

// What follows `shut`, where the text is that alone: nothing.
fn shut_text(text: &[u8]) -> Option<&[u8]>
    ensures some { IfSome result (λ rest. (text.now ≡ codes "shut") × (rest.now ≡ [])) }
    ensures none { IfNone result (¬ (text.now ≡ codes "shut")) }
{
    match text {
        b"shut" => Some(&text[4..]),
        _ => None,
    }
}

// The operation that the text says first, and what follows a space; after a shut follows nothing.
fn read_operation(text: &[u8]) -> Option<(Named, &[u8])>
    ensures some { IfSome result (λ found.
        (o : OperationSeen) × SaysFirst text.now o found.1.now × HasOperation found.0 o) }
    ensures none { IfNone result ((o : OperationSeen) (rest : List ℕ) → ¬ (SaysFirst text.now o rest)) }
{
    if let Some(number) = removed_text(text) {
        let (ticket, rest) = lead(number)?;
        return Some((Named::Remove(ticket), rest));
    }
    if let Some(numbers) = moved_text(text) {
        let (ticket, priority, rest) = lead_both(numbers)?;
        return Some((Named::Move(ticket, priority), rest));
    }
    if let Some(rest) = shut_text(text) {
        return Some((Named::Shut, rest));
    }
    let (kind, parts, rest) = read_request(text)?;
    Some((Named::Asked(kind, parts), rest))
}

// The three numbers that the text begins with, and what follows a space.
fn lead_all(text: &[u8]) -> Option<(u128, u128, u128, &[u8])>
    ensures some { IfSome result (λ found. (n p s : ℕ) × LeadsAll text.now n p s found.3.now
        × (found.0 ≡ capped n) × (found.1 ≡ capped p) × (found.2 ≡ capped s)) }
    ensures none { IfNone result ((n p s : ℕ) (rest : List ℕ) → ¬ (LeadsAll text.now n p s rest)) }
{
    let (number, place_on) = lead(text)?;
    let (place, serial_on) = lead(place_on)?;
    let (serial, rest) = lead(serial_on)?;
    Some((number, place, serial, rest))
}

// What the text spells.
fn read_shape(text: &[u8]) -> Option<Shape>
    ensures some { IfSome result (λ shape. (n : ℕ) × (l : LineSeen) × SpellsLine text.now n l × HasShape shape n l) }
    ensures none { IfNone result ((n : ℕ) (l : LineSeen) → ¬ (SpellsLine text.now n l)) }
{
    let (number, place, serial, operation_on) = lead_all(text)?;
    let (named, reply_on) = read_operation(operation_on)?;
    let (outcome, told) = read_told(named, reply_on)?;
    Some(Shape {
        number,
        place,
        serial,
        named,
        outcome,
        told,
    })
}

// The item of these numbers, where both are in their range.
fn item_of<P: Part>(parts: Parts) -> Option<Item<P>>
    ensures some { IfSome result (λ x. (y : ItemSeen) → AreParts parts y → x ≡ y) }
    ensures in_range { IfSome result (λ x. IsItemOf P.wide x) }
    ensures none { IfNone result ((y : ItemSeen) → AreParts parts y → ¬ (IsItemOf P.wide y)) }
    ensures no_parts { IfNone result (¬ (AreNone parts)) }
{
    let most = u128::from(greatest::<P>());
    if parts.priority > most || parts.value > most {
        return None;
    }
    Some(Item::of_parts(parts.priority as u64, parts.value as u64))
}

// Whether a request of this kind may have a reply with this outcome.
fn may_reply(kind: Kind, outcome: Outcome) -> bool
    ensures { (request : Request) (reply : Reply) → kind_of request ≡ kind → outcome_of reply ≡ outcome
        → IsTrue result ↔ MayReply request reply }
{
    match kind {
        Kind::Push => outcome == Outcome::Pushed,
        Kind::Pop => outcome == Outcome::Got || outcome == Outcome::Empty,
        Kind::Least => outcome == Outcome::Least || outcome == Outcome::Empty,
    }
}

// The number, where it is that of a line, or of a post at a place.
fn count_of(number: u128) -> Option<u64>
    ensures some { IfSome result (λ count. (n : ℕ) → number ≡ capped n → (count ≡ n) × (0 < n) × (n ≤ GREATEST_NUMBER)) }
    ensures none { IfNone result ((n : ℕ) → number ≡ capped n → ¬ ((0 < n) × (n ≤ GREATEST_NUMBER))) }
{
    if number == 0 || number > u128::from(GREATEST_NUMBER) {
        return None;
    }
    Some(number as u64)
}

// The ticket, where it has 64 bits.
fn ticket_of(number: u128) -> Option<u64>
    ensures some { IfSome result (λ ticket. (n : ℕ) → number ≡ capped n → (ticket ≡ n) × (n < 2 ^ 64)) }
    ensures none { IfNone result ((n : ℕ) → number ≡ capped n → ¬ (n < 2 ^ 64)) }
{
    if number >= BEYOND {
        return None;
    }
    Some(number as u64)
}

// The priority, where it is in the range of its width.
fn priority_of<P: Part>(number: u128) -> Option<P>
    ensures some { IfSome result (λ part. (n : ℕ) → number ≡ capped n → (P.number part ≡ n) × (n < bound_of P.wide)) }
    ensures none { IfNone result ((n : ℕ) → number ≡ capped n → ¬ (n < bound_of P.wide)) }
{
    if number > u128::from(greatest::<P>()) {
        return None;
    }
    Some(P::of_u64(number as u64))
}

// The operation of these numbers, where they are in their ranges.
fn operation_of<P: Part>(named: Named) -> Option<Operation<P>>
    ensures some { IfSome result (λ found. (o : OperationSeen) → HasOperation named o
        → (found ≡ o) × IsOperationInRange P.wide o) }
    ensures none { IfNone result ((o : OperationSeen) → HasOperation named o → ¬ (IsOperationInRange P.wide o)) }
{
    match named {
        Named::Asked(kind, parts) => {
            let item = item_of(parts)?;
            Some(Operation::asked(kind.with_item(item)))
        }
        Named::Remove(number) => {
            let ticket = ticket_of(number)?;
            Some(Operation::remove(ticket))
        }
        Named::Move(number, to) => {
            let ticket = ticket_of(number)?;
            let priority = priority_of(to)?;
            Some(Operation::reschedule(ticket, priority))
        }
        Named::Shut => Some(Operation::shut()),
    }
}

// Whether this operation may have a reply with this outcome: a removal and a move have those of a pop, and a shut takes
// nothing out.
fn may_reply_to(named: Named, outcome: Outcome) -> bool
    ensures { (o : OperationSeen) (reply : Reply) → HasOperation named o → outcome_of reply ≡ outcome
        → IsTrue result ↔ MayReplyTo o reply }
{
    match named {
        Named::Asked(kind, _) => may_reply(kind, outcome),
        Named::Remove(_) | Named::Move(_, _) => may_reply(Kind::Pop, outcome),
        Named::Shut => outcome == Outcome::Empty,
    }
}

// The line of this shape, where its numbers are in their ranges.
fn line_in_range<P: Part>(shape: &Shape) -> Option<NumberedLine<P>>
    ensures some { IfSome result (λ found. (n : ℕ) (l : LineSeen) → HasShape shape.now n l
        → (found.number ≡ n) × (found.line ≡ l) × IsInRange P.wide n l) }
    ensures none { IfNone result ((n : ℕ) (l : LineSeen) → HasShape shape.now n l → ¬ (IsInRange P.wide n l)) }
{
    let number = count_of(shape.number)?;
    let serial = count_of(shape.serial)?;
    let Ok(place) = u16::try_from(shape.place) else {
        return None;
    };
    let operation = operation_of(shape.named)?;
    let told = item_of(shape.told)?;
    let line = Line {
        place,
        serial,
        operation,
        reply: shape.outcome.with_item(told),
    };
    Some(NumberedLine { number, line })
}

/// A journal line and its number.
#[derive(Clone, Copy, Debug, PartialEq, Eq)]
pub struct NumberedLine<P: Part = u32> {
    pub number: u64,
    pub line: Line<P>,
}

/// The journal line that a text without its line feed spells, with its number: number, place,
/// serial, operation and reply, with one space between; a shut has no reply. Numbers are one or more decimal digits;
/// leading zeros are read, a sign, a further space or a capital letter isn't. Those of items, and the new priority of a move, are
/// in the range of their width; a ticket has 64 bits.
pub fn read_line<P: Part>(text: &[u8]) -> Result<NumberedLine<P>, LineError>
    ensures ok { IfOk result (λ found. IsLineText P.wide text.now found.number found.line) }
    ensures err { IfErr result (λ error. IsNoLineFor P.wide text.now error) }
    // Nothing that spells a line is refused, and no text is refused for two reasons.
    ensures every_line { (number : ℕ) (l : LineSeen) → IsLineText P.wide text.now number l → result ≡ Ok (numbered number l) }
    ensures every_refusal { (error : LineError) → IsNoLineFor P.wide text.now error → result ≡ Err error }
{
    let Some(shape) = read_shape(text) else {
        return Err(LineError::UnknownWord);
    };
    let Some(found) = line_in_range(&shape) else {
        return Err(LineError::OutOfRange);
    };
    if !may_reply_to(shape.named, shape.outcome) {
        return Err(LineError::NoSuchReply);
    }
    Ok(found)
}
