// The mail of a place: a publication record in two words of 64 bits (Hendler, Incze, Shavit and
// Tzafrir 2010), a control word and an item word.
ghost use Rattle.pq_types.specs.Asked.{Mail as MailSeen};
ghost use Rattle.std.specs.Prelude.{◌≡◌, ◌≢◌, ◌↔◌, IsTrue, Some, IfSome, IfNone, map};
ghost use Rattle.std.specs.Option.{option_map};
ghost use Rattle.pq_types.specs.Item.{item_word};
ghost use Rattle.pq_types.specs.Control.{control_of, mail_with, mail_item};
ghost use Rattle.pq_types.specs.Mail.{IsProper, FitsShort, StandsIn, control_word};

use crate::answer::{Answer, Reply};
use crate::control::Control;
use crate::item::Item;
use crate::journal::{GREATEST_SERIAL, MOST_LINES};
use crate::request::Request;

/// What the record of a place says.
#[derive(Clone, Copy, Debug, PartialEq, Eq)]
pub enum Mail<I = Item> {
    /// Nothing was ever posted here.
    Nothing,
    /// This request waits for an answer. Its serial counts the posts at this place from 1 on, of a short queue to
    /// 16,777,215.
    Posted(u64, Request<I>),
    /// The request posted last has this answer.
    Answered(Answer<I>),
}

impl Control {
    /// The mail with this control, and this item where the control says that there is one.
    pub fn with_item(self, item: Item) -> Mail
        ensures { result ≡ mail_with self item }
    {
        match self {
            Control::Nothing => Mail::Nothing,
            Control::Posted(serial, kind) => Mail::Posted(serial, kind.with_item(item)),
            Control::Answered(notice) => Mail::Answered(notice.with_item(item)),
        }
    }
}

impl Mail {
    // What its control word says.
    fn without_item(self) -> Control
        ensures { result ≡ control_of self }
    {
        match self {
            Mail::Nothing => Control::Nothing,
            Mail::Posted(serial, request) => Control::Posted(serial, request.kind()),
            Mail::Answered(answer) => Control::Answered(answer.notice()),
        }
    }

    // Whether its serial is at most 16,777,215, or its journal line at most 1,048,576.
    fn is_short(&self) -> bool
        ensures { IsTrue result ↔ FitsShort self.now }
    {
        match self {
            Mail::Posted(serial, _) => *serial <= GREATEST_SERIAL,
            Mail::Answered(Answer::Entered(line, _)) => *line <= MOST_LINES,
            _ => true,
        }
    }

    /// The control word of a proper mail of a short queue: one whose serial is 1 to 16,777,215, or whose journal
    /// line is 1 to 1,048,576.
    pub fn control(self) -> u64
        requires { IsProper self }
        ensures { result ≡ control_word (control_of self) }
    {
        self.without_item().word()
    }

    /// The item word of a mail that has an item: a posted push, or an answer that tells one.
    pub fn item(self) -> Option<u64>
        ensures { result ≡ option_map item_word (mail_item self) }
    {
        match self {
            Mail::Posted(_, Request::Push(item))
            | Mail::Answered(Answer::Entered(_, Reply::Got(item)))
            | Mail::Answered(Answer::Entered(_, Reply::Least(item))) => Some(item.word()),
            _ => None,
        }
    }

    /// The proper mail that stands in these two words, and None where no proper mail has the
    /// control word. Where the control says that there is no item, any item word will do.
    pub fn read(control: u64, item: u64) -> Option<Mail>
        ensures some { IfSome result (λ m. IsProper m × StandsIn m control item) }
        // Two words are at most one mail's.
        ensures only { (m : MailSeen) → IsProper m → StandsIn m control item → result ≡ Some m }
        ensures none { IfNone result ((m : MailSeen) → IsProper m → control_word (control_of m) ≢ control) }
    {
        let mail = Control::read(control)?.with_item(Item::of_word(item));
        if mail.is_short() { Some(mail) } else { None }
    }
}
