// The control word of a place: the half of a publication record (Hendler, Incze, Shavit and Tzafrir
// 2010) that says what stands there. The item, where there is one, fills the other word.
ghost use Rattle.std.specs.Prelude.{◌≡◌, ◌≢◌, ◌+◌, ◌*◌, ◌<◌, Some, IfSome, IfNone};
ghost use Rattle.pq_types.specs.Control.{kind_of, request_with, outcome_of, reply_with, notice_of, answer_with};
ghost use Rattle.pq_types.specs.Mail.{IsProperControl, control_word, posted_of, entered_of};

use crate::answer::{Answer, Refusal, Reply};
use crate::item::Item;
use crate::journal::GREATEST_NUMBER;
use crate::part::Part;
use crate::request::Request;

/// A request without its item.
#[derive(Clone, Copy)]
pub enum Kind {
    Push,
    Pop,
    Least,
}

/// A reply without its item.
#[derive(Clone, Copy)]
pub enum Outcome {
    Pushed,
    Got,
    Least,
    Empty,
}

/// An answer without its item.
#[derive(Clone, Copy)]
pub enum Notice {
    Entered(u64, Outcome),
    BookFull,
    NoMemory,
    Refused(Refusal),
}

/// What the control word of a place says.
#[derive(Clone, Copy)]
pub enum Control {
    /// Nothing was ever posted here.
    Nothing,
    /// A request of this kind waits for an answer. Its serial counts the posts at this place, from
    /// 1.
    Posted(u64, Kind),
    /// The request posted last has this answer.
    Answered(Notice),
}

/// The phase of a control word at which nothing was ever posted: its low 4 bits.
pub const NOTHING: u64 = 0;
/// The phase of a posted push.
pub const PUSH_POSTED: u64 = 1;
/// The phase of a posted pop.
pub const POP_POSTED: u64 = 2;
/// The phase of a posted least.
pub const LEAST_POSTED: u64 = 3;
/// The phase of a push that was entered.
pub const PUSHED: u64 = 8;
/// The phase of a pop that got an item.
pub const GOT: u64 = 9;
/// The phase of a least that was told an item.
pub const LEAST_TOLD: u64 = 10;
/// The phase of a pop or least that found no item.
pub const EMPTY: u64 = 11;
/// The phase of a request for which the journal had no line.
pub const BOOK_FULL: u64 = 12;
/// The phase of a push for which there was no memory.
pub const NO_MEMORY: u64 = 13;
/// The phase of a push to a queue that is shut.
pub const SHUT: u64 = 14;
/// The phase of a push to a queue with as many items as its bound.
pub const FULL: u64 = 15;
/// The phase of a request whose line would make memory forget one that is not archived.
pub const UNARCHIVED: u64 = 7;

/// A phase is below this number, by which a serial or line is multiplied.
pub const PHASES: u64 = 16;

impl<P: Part> Request<Item<P>> {
    /// The request without its item.
    pub fn kind(self) -> Kind
        ensures { result ≡ kind_of self }
    {
        match self {
            Request::Push(_) => Kind::Push,
            Request::Pop => Kind::Pop,
            Request::Least => Kind::Least,
        }
    }
}

impl Kind {
    /// The request of this kind, for a push with this item.
    pub fn with_item<P: Part>(self, item: Item<P>) -> Request<Item<P>>
        ensures { result ≡ request_with self item }
    {
        match self {
            Kind::Push => Request::Push(item),
            Kind::Pop => Request::Pop,
            Kind::Least => Request::Least,
        }
    }
}

impl<P: Part> Reply<Item<P>> {
    /// The reply without its item.
    pub fn outcome(self) -> Outcome
        ensures { result ≡ outcome_of self }
    {
        match self {
            Reply::Pushed => Outcome::Pushed,
            Reply::Got(_) => Outcome::Got,
            Reply::Least(_) => Outcome::Least,
            Reply::Empty => Outcome::Empty,
        }
    }
}

impl Outcome {
    /// The reply that says so, with this item where it has one.
    pub fn with_item<P: Part>(self, item: Item<P>) -> Reply<Item<P>>
        ensures { result ≡ reply_with self item }
    {
        match self {
            Outcome::Pushed => Reply::Pushed,
            Outcome::Got => Reply::Got(item),
            Outcome::Least => Reply::Least(item),
            Outcome::Empty => Reply::Empty,
        }
    }
}

impl<P: Part> Answer<Item<P>> {
    /// The answer without its item.
    pub fn notice(self) -> Notice
        ensures { result ≡ notice_of self }
    {
        match self {
            Answer::Entered(line, reply) => Notice::Entered(line, reply.outcome()),
            Answer::BookFull => Notice::BookFull,
            Answer::NoMemory => Notice::NoMemory,
            Answer::Refused(refusal) => Notice::Refused(refusal.why()),
        }
    }
}

impl Notice {
    /// The answer that says so, with this item where it has one.
    pub fn with_item<P: Part>(self, item: Item<P>) -> Answer<Item<P>>
        ensures { result ≡ answer_with self item }
    {
        match self {
            Notice::Entered(line, outcome) => Answer::Entered(line, outcome.with_item(item)),
            Notice::BookFull => Answer::BookFull,
            Notice::NoMemory => Answer::NoMemory,
            Notice::Refused(refusal) => Answer::Refused(refusal.padded()),
        }
    }
}

// The control of a posted request of this kind, where the number is a serial.
fn posted(kind: Kind, number: u64) -> Option<Control>
    ensures { result ≡ posted_of kind number }
{
    if number > 0 && number <= GREATEST_NUMBER {
        Some(Control::Posted(number, kind))
    } else {
        None
    }
}

// The control of an entered answer with this outcome, where the number is a journal line.
fn entered(outcome: Outcome, number: u64) -> Option<Control>
    ensures { result ≡ entered_of outcome number }
{
    if number > 0 && number <= GREATEST_NUMBER {
        Some(Control::Answered(Notice::Entered(number, outcome)))
    } else {
        None
    }
}

// The proper control with this phase and number.
fn control_of_parts(phase: u64, number: u64) -> Option<Control>
    requires { phase < PHASES }
    ensures some { IfSome result (λ c. IsProperControl c × (control_word c ≡ phase + PHASES * number)) }
    ensures none { IfNone result ((c : Control) → IsProperControl c → control_word c ≢ phase + PHASES * number) }
{
    match phase {
        PUSH_POSTED => posted(Kind::Push, number),
        POP_POSTED => posted(Kind::Pop, number),
        LEAST_POSTED => posted(Kind::Least, number),
        PUSHED => entered(Outcome::Pushed, number),
        GOT => entered(Outcome::Got, number),
        LEAST_TOLD => entered(Outcome::Least, number),
        EMPTY => entered(Outcome::Empty, number),
        NOTHING if number == 0 => Some(Control::Nothing),
        BOOK_FULL if number == 0 => Some(Control::Answered(Notice::BookFull)),
        NO_MEMORY if number == 0 => Some(Control::Answered(Notice::NoMemory)),
        SHUT if number == 0 => Some(Control::Answered(Notice::Refused(Refusal::Shut))),
        FULL if number == 0 => Some(Control::Answered(Notice::Refused(Refusal::Full))),
        UNARCHIVED if number == 0 => Some(Control::Answered(Notice::Refused(Refusal::Unarchived))),
        _ => None,
    }
}

impl Control {
    /// The word of a proper control: one whose serial or journal line is 1 to
    /// 72,057,594,037,927,936. The phase stands in the low 4 bits, the serial or line above them.
    pub fn word(self) -> u64
        requires { IsProperControl self }
        ensures { result ≡ control_word self }
    {
        match self {
            Control::Nothing => NOTHING,
            Control::Posted(serial, kind) => {
                let phase = match kind {
                    Kind::Push => PUSH_POSTED,
                    Kind::Pop => POP_POSTED,
                    Kind::Least => LEAST_POSTED,
                };
                phase + PHASES * serial
            }
            Control::Answered(Notice::Entered(line, outcome)) => {
                let phase = match outcome {
                    Outcome::Pushed => PUSHED,
                    Outcome::Got => GOT,
                    Outcome::Least => LEAST_TOLD,
                    Outcome::Empty => EMPTY,
                };
                phase + PHASES * line
            }
            Control::Answered(Notice::BookFull) => BOOK_FULL,
            Control::Answered(Notice::NoMemory) => NO_MEMORY,
            Control::Answered(Notice::Refused(Refusal::Shut)) => SHUT,
            Control::Answered(Notice::Refused(Refusal::Full)) => FULL,
            Control::Answered(Notice::Refused(Refusal::Unarchived)) => UNARCHIVED,
        }
    }

    /// The proper control that has this word, and None where there is none.
    pub fn read(word: u64) -> Option<Control>
        ensures some { IfSome result (λ c. IsProperControl c × (control_word c ≡ word)) }
        // There is one control for a word at the most.
        ensures only { (c : Control) → IsProperControl c → control_word c ≡ word → result ≡ Some c }
        ensures none { IfNone result ((c : Control) → IsProperControl c → control_word c ≢ word) }
    {
        control_of_parts(word % PHASES, word / PHASES)
    }
}
