// The journal's lines.
ghost use Rattle.std.specs.Prelude.{◌≡◌};

use crate::answer::Reply;
use crate::item::Item;
use crate::operation::Operation;
use crate::part::Part;
use std::alloc::AllocError;
use std::marker::Model;

/// The most lines that the journal of a short queue has room for.
pub const MOST_LINES: u64 = 1_048_576;

/// The greatest serial of a mail, and of a call of a short queue: whose member has posted so often
/// is told that its posts are spent.
pub const GREATEST_SERIAL: u64 = 16_777_215;

/// The greatest number of a line, or of a post at a place, that any control word has: 2^56.
pub const GREATEST_NUMBER: u64 = 72_057_594_037_927_936;

/// A line of the journal: what was done for the poster at this place under this serial, and the reply to it. Serials count
/// the posts at a place, from 1. The fields are laid out as they are written, in 40 bytes, or in 64 for wide items.
#[derive(Copy, Debug, PartialEq, Eq)]
pub struct Line<P: Part = u32> {
    pub serial: u64,
    pub operation: Operation<P>,
    pub reply: Reply<Item<P>>,
    pub place: u16,
}

impl<P: Part> Model for Line<P> {
    ghost use Rattle.pq_types.specs.Asked.{Line as Seen};

    ghost Value = { Seen };

    ghost view = { λ l. record { serial = l.serial; operation = l.operation; reply = l.reply; place = l.place } };

    ghost inverse = { λ l. record { serial = l.serial; operation = l.operation; reply = l.reply; place = l.place } };
}

impl<P: Part> Clone for Line<P> {
    ghost is_clone = { λ x y. x ≡ y };

    ghost is_infallible = { λ _. Unit };

    fn clone(&self) -> Result<Line<P>, AllocError> {
        Ok(*self)
    }
}
