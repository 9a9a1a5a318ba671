// Why a text is no lawful journal.
ghost use Rattle.std.specs.Prelude.{◌≡◌};
ghost use Rattle.queue_texts.specs.Refusals.{unlawful_code, refusal_status};

use crate::line_reading::LineError;
use pq_types::{Item, Part, Reply};
use std::fmt;
use std::fmt::{Formatter, Write};
use thiserror::Error;

/// How a journal line breaks the law of journals.
#[derive(Clone, Copy, Debug, PartialEq, Eq)]
pub enum Breach {
    /// It doesn't have the number that is due: one more than the line before it.
    WrongNumber {
        told: u64,
        due: u64,
    },
    /// Its serial isn't above the greatest one that its place has had.
    SerialFalls {
        place: u16,
        serial: u64,
        last: u64,
    },
    /// It is a push, and the queue is shut; or another shut.
    BehindShut {
        again: bool,
    },
    /// Its reply to a request isn't the one that the queue of one thread gives there. Either is told as one of wide
    /// items, whatever the width of the journal's.
    WrongReply {
        told: Reply<Item<u64>>,
        due: Reply<Item<u64>>,
    },
    /// It removes the item of this ticket, and its reply isn't the one that the queue of one thread gives there.
    WrongRemoval {
        ticket: u64,
        told: Reply<Item<u64>>,
        due: Reply<Item<u64>>,
    },
    /// It moves the item of this ticket to this priority, and its reply isn't the one that the queue of one thread gives there.
    WrongMove {
        ticket: u64,
        priority: u64,
        told: Reply<Item<u64>>,
        due: Reply<Item<u64>>,
    },
}

// The reply as one of wide items.
pub(crate) fn widened<P: Part>(reply: Reply<Item<P>>) -> Reply<Item<u64>>
    ensures { result ≡ reply }
{
    match reply {
        Reply::Pushed => Reply::Pushed,
        Reply::Got(item) => Reply::Got(wide_item(item)),
        Reply::Least(item) => Reply::Least(wide_item(item)),
        Reply::Empty => Reply::Empty,
    }
}

// The item as a wide one.
fn wide_item<P: Part>(item: Item<P>) -> Item<u64>
    ensures { result ≡ item }
{
    let (priority, value) = item.parts();
    Item { priority, value }
}

// Writes a reply in words.
fn write_reply<W: Write>(reply: Reply<Item<u64>>, f: &mut Formatter<W>) -> Result<(), fmt::Error> {
    match reply {
        Reply::Pushed => write!(f, "pushed"),
        Reply::Got(item) => write!(f, "got {} {}", item.priority, item.value),
        Reply::Least(item) => write!(f, "least {} {}", item.priority, item.value),
        Reply::Empty => write!(f, "empty"),
    }
}

impl fmt::Display for Breach {
    fn fmt<W: Write>(&self, f: &mut Formatter<W>) -> Result<(), fmt::Error> {
        match self {
            Breach::WrongNumber { told, due } => write!(f, "number {told} where {due} is due"),
            Breach::SerialFalls {
                place,
                serial,
                last,
            } => write!(f, "serial {serial} of place {place} behind {last}"),
            Breach::BehindShut { again: false } => write!(f, "pushed where the queue was shut"),
            Breach::BehindShut { again: true } => write!(f, "shut where the queue was shut"),
            Breach::WrongReply { told, due } => {
                write_reply(*told, f)?;
                match due {
                    Reply::Got(item) | Reply::Least(item) => {
                        write!(f, " where {} {} came first", item.priority, item.value)
                    }
                    _ => write!(f, " where the queue was empty"),
                }
            }
            Breach::WrongRemoval { ticket, told, due }
            | Breach::WrongMove {
                ticket,
                priority: _,
                told,
                due,
            } => {
                write_reply(*told, f)?;
                match due {
                    Reply::Got(item) => {
                        write!(
                            f,
                            " where {} {} waited with ticket {ticket}",
                            item.priority, item.value
                        )
                    }
                    _ => write!(f, " where no item waited with ticket {ticket}"),
                }
            }
        }
    }
}

/// Why a line is no lawful one.
#[derive(Clone, Copy, Debug, PartialEq, Eq, Error)]
pub enum Unlawful {
    /// It is no journal line.
    #[error("{0}")]
    NoLine(LineError),
    /// It is one, and breaks the law.
    #[error("{0}")]
    Broken(Breach),
}

impl Unlawful {
    /// The number of this refusal: 32 to 34 where it is no line, 35 where it breaks the law.
    pub fn code(&self) -> u32
        ensures { result ≡ unlawful_code self.now }
    {
        match self {
            Unlawful::NoLine(error) => error.code(),
            Unlawful::Broken(_) => 35,
        }
    }
}

/// The first line, counted from 1, that is no lawful one.
#[derive(Clone, Copy, Debug, PartialEq, Eq, Error)]
#[error("line {line}: {reason}")]
pub struct AuditRefusal {
    pub line: u64,
    pub reason: Unlawful,
}

impl AuditRefusal {
    /// The exit status: 3 where a line is none, 5 where one breaks the law.
    pub fn status(&self) -> u8
        ensures { result ≡ refusal_status self.now }
    {
        match self.reason {
            Unlawful::NoLine(_) => 3,
            Unlawful::Broken(_) => 5,
        }
    }
}
