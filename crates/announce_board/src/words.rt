// Where the words of a desk stand in its table, and what its control words say. A word is asked for
// its phase before its parts are, since most words that are read are neither a post nor an answer. The phases
// of answers are those from UNARCHIVED on.
ghost use Rattle.std.specs.Prelude.{◌≡◌};
ghost use Rattle.pq_types.specs.declared.control.Control.{Control};
ghost use Rattle.pq_types.specs.Control.{is_answer, is_posted, notice_has_item};
ghost use Rattle.pq_types.specs.Mail.{IsProperControl, control_word};
ghost use Rattle.desk_core.specs.Layout.{control_at, item_at, word_count};
ghost use Rattle.announce_board.specs.Asking.{notice_in, post_in};

use pq_types::control::{NOTHING, PHASES, UNARCHIVED};
use pq_types::{Control, Kind, Notice, Outcome};

/// The index of the lock.
pub const LOCK: usize = 0;

/// The index of the control word of this place.
pub fn control_index(place: u16) -> usize
    ensures { result ≡ control_at place }
{
    8 * (place as usize + 1)
}

/// The index of the item word of this place, or of the first of two.
pub fn item_index(place: u16) -> usize
    ensures { result ≡ item_at place }
{
    8 * (place as usize + 1) + 1
}

/// The number of words of a desk with so many places.
pub fn words_of(places: u16) -> usize
    ensures { result ≡ word_count places }
{
    8 * (places as usize + 1)
}

fn is_answer_word(word: u64) -> bool
    ensures { (c : Control) → control_word c ≡ word → result ≡ is_answer c }
{
    word % PHASES >= UNARCHIVED
}

fn is_posted_word(word: u64) -> bool
    ensures { (c : Control) → control_word c ≡ word → result ≡ is_posted c }
{
    let phase = word % PHASES;
    phase != NOTHING && phase < UNARCHIVED
}

/// The notice of the answer whose control has this word.
pub fn notice_in_word(word: u64) -> Option<Notice>
    ensures { (c : Control) → IsProperControl c → control_word c ≡ word → result ≡ notice_in c }
{
    if !is_answer_word(word) {
        return None;
    }
    match Control::read(word) {
        Some(Control::Answered(notice)) => Some(notice),
        _ => None,
    }
}

/// The serial and the kind of the post whose control has this word.
pub fn post_in_word(word: u64) -> Option<(u64, Kind)>
    ensures { (c : Control) → IsProperControl c → control_word c ≡ word → result ≡ post_in c }
{
    if !is_posted_word(word) {
        return None;
    }
    match Control::read(word) {
        Some(Control::Posted(serial, kind)) => Some((serial, kind)),
        _ => None,
    }
}

/// Whether the answer of this notice has an item.
pub fn has_item(notice: Notice) -> bool
    ensures { result ≡ notice_has_item notice }
{
    matches!(
        notice,
        Notice::Entered(_, Outcome::Got) | Notice::Entered(_, Outcome::Least)
    )
}
