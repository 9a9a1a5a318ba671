// Whole numbers in text.
ghost use Rattle.std.specs.Prelude.{◌≡◌, ℕ, ◌+◌, ◌*◌, ◌<◌, ◌≤◌, ◌^◌, ◌↔◌, IfOk};
ghost use Rattle.std.specs.Option.{SomeIff};
ghost use Rattle.std.specs.Str.Parse.{IsNumeral, digits_value};

use thiserror::Error;

/// Why a text is not read as a number.
#[derive(Clone, Copy, Debug, PartialEq, Eq, Error)]
pub enum NumberError {
    /// It is not one or more decimal digits and nothing else.
    #[error("not a number")]
    NotANumber,
    /// The digits stand for 18,446,744,073,709,551,616 or more.
    #[error("number out of range")]
    OutOfRange,
}

/// Reads one or more decimal digits, and nothing else, as a whole number below 2^64. Leading zeros
/// are read, a sign isn't.
pub fn read_number(text: &[u8]) -> Result<u64, NumberError>
    ensures ok { IfOk result (λ n. IsNumeral 10 text.now × (digits_value 10 text.now ≡ n)) }
    ensures not_a_number { (result ≡ Err NumberError.NotANumber) ↔ (¬ (IsNumeral 10 text.now)) }
    ensures out_of_range { (result ≡ Err NumberError.OutOfRange) ↔ (IsNumeral 10 text.now × (2 ^ 64 ≤ digits_value 10 text.now)) }
{
    if text.is_empty() {
        return Err(NumberError::NotANumber);
    }
    let mut value = Some(0u64);
    for byte in text {
        let Some(digit) = char::from(*byte).to_digit(10) else {
            return Err(NumberError::NotANumber);
        };
        value = with_digit(value, digit);
    }
    value.ok_or(NumberError::OutOfRange)
}

// A number with one more decimal digit. It is there as long as it is below 2^64.
fn with_digit(value: Option<u64>, digit: u32) -> Option<u64>
    ensures { (n : ℕ) → SomeIff value (n < 2 ^ 64) n → SomeIff result (n * 10 + digit < 2 ^ 64) (n * 10 + digit) }
{
    value?.checked_mul(10)?.checked_add(u64::from(digit))
}
