// The text of an item, out and in.
ghost use Rattle.std.specs.Prelude.{◌≡◌, ◌+◌, ◌<◌, ◌≤◌, ◌↔◌, ◌++◌, ◌∷◌, take, length, get_or, IfOk, IfSome, IfNone, Err};
ghost use Rattle.std.specs.Str.Parse.{IsNumeral, digits_value};
ghost use Rattle.pq_types.specs.Item.{bound_of};
ghost use Rattle.queue_texts.specs.ItemText.{space, item_text, SpellsNumber, HasNoSpace, ArePair, IsReadAs};

use crate::number::{NumberError, read_number};
use arrayvec::ArrayVec;
use itoa::Buffer;
use pq_types::{Item, Part};

// The text of an item has at most 41 bytes.
const LONGEST_ITEM: usize = 41;

/// The priority, a space and the value, in decimal digits.
pub(crate) fn text_of_item<P: Part>(item: &Item<P>) -> ArrayVec<u8, LONGEST_ITEM>
    ensures { result.items ≡ item_text item.now }
{
    let (priority, value) = item.parts();
    let mut text = ArrayVec::new();
    text.try_extend_from_slice(Buffer::new().format(priority).as_bytes())
        .unwrap();
    text.push(b' ');
    text.try_extend_from_slice(Buffer::new().format(value).as_bytes())
        .unwrap();
    text
}

// The greatest number that is a part of an item of this width.
pub(crate) fn greatest<P: Part>() -> u64
    ensures { result + 1 ≡ bound_of P.wide }
{
    if P::is_wide() {
        return u64::MAX;
    }
    u64::from(u32::MAX)
}

// One of the two numbers of an item of this width.
fn read_part<P: Part>(text: &[u8]) -> Result<u64, NumberError>
    ensures ok { IfOk result (λ n. SpellsNumber text.now n) }
    ensures range { IfOk result (λ n. n < bound_of P.wide) }
    ensures not_a_number { (result ≡ Err NumberError.NotANumber) ↔ (¬ (IsNumeral 10 text.now)) }
    ensures out_of_range { (result ≡ Err NumberError.OutOfRange)
        ↔ (IsNumeral 10 text.now × (bound_of P.wide ≤ digits_value 10 text.now)) }
{
    let greatest = greatest::<P>();
    let number = read_number(text)?;
    if number > greatest {
        return Err(NumberError::OutOfRange);
    }
    Ok(number)
}

// Where the first space stands.
fn first_space(text: &[u8]) -> Option<usize>
    ensures some { IfSome result (λ n. (n < length text.now) × (get_or text.now n 0 ≡ space) × HasNoSpace (take n text.now)) }
    ensures none { IfNone result (HasNoSpace text.now) }
{
    text.iter().position(|byte| *byte == b' ')
}

// The text before the first space, and the text behind it.
pub(crate) fn split_at_space(text: &[u8]) -> Option<(&[u8], &[u8])>
    ensures some { IfSome result (λ parts. (text.now ≡ parts.0.now ++ space ∷ parts.1.now) × HasNoSpace parts.0.now) }
    ensures none { IfNone result (HasNoSpace text.now) }
{
    let space = first_space(text)?;
    Some((&text[..space], &text[space + 1..]))
}

// The item of these two texts.
fn read_pair<P: Part>(first: &[u8], second: &[u8]) -> Result<Item<P>, NumberError>
    ensures { ArePair P.wide first.now second.now result }
{
    match (read_part::<P>(first), read_part::<P>(second)) {
        (Ok(priority), Ok(value)) => Ok(Item::of_parts(priority, value)),
        (Err(NumberError::NotANumber), _) | (_, Err(NumberError::NotANumber)) => {
            Err(NumberError::NotANumber)
        }
        _ => Err(NumberError::OutOfRange),
    }
}

/// Reads an item: its priority and its value, each in decimal digits and in the range of its width, with
/// one space between them. Where the priority stands alone the value is 0.
pub fn read_item<P: Part>(text: &[u8]) -> Result<Item<P>, NumberError>
    ensures { IsReadAs P.wide text.now result }
{
    match split_at_space(text) {
        Some((first, second)) => read_pair(first, second),
        None => read_pair(text, b"0"),
    }
}
