//! Number fields.

ghost use Rattle.std.specs.Prelude.{◌≡◌, ◌≤◌, Some, None, if◌then◌else◌, length};
ghost use Rattle.std.specs.Char.{is_ascii_digit};
ghost use Rattle.std.specs.List.{list_all};
ghost use Rattle.std.specs.Str.Parse.{digits_value};
ghost use Rattle.cn_texts.specs.Reading.Number.{number_in, value_in};

use cn_spec::limits::MOST_DIGITS;

/// One digit less than the most that a number has. The value of so many is below 10 ^ 19, so none is too large.
const FEW_DIGITS: usize = MOST_DIGITS - 1;

/// What 1 before so few digits counts.
const LEAD_WEIGHT: u128 = 10_000_000_000_000_000_000;

/// The value of so few digits, if each byte is one.
///
/// No byte ends the loop, so that the compiler can test many bytes at once. A digit is worth its byte modulo 16. Any
/// other byte counts below 16 too, so the sum fits whatever the bytes are.
fn value_of_few(digits: &[u8]) -> Option<u64>
    requires { length digits.now ≤ FEW_DIGITS }
    ensures { result ≡ (if list_all is_ascii_digit digits.now then Some (digits_value 10 digits.now) else None) }
{
    let mut value = 0u64;
    let mut are_digits = true;
    for digit in digits {
        are_digits &= digit.is_ascii_digit();
        value = 10 * value + u64::from(*digit % 16);
    }
    if !are_digits {
        return None;
    }
    Some(value)
}

/// The number that a field of the most digits, or of one less, spells, if it is one below 2 ^ 64.
///
/// Most numbers that are drawn evenly have the one length or the other. One digit less is worth what it is with a zero
/// before it, so of either the last `FEW_DIGITS` are summed, and the compiler needs no loop for a length that it knows.
fn value_of_many(field: &[u8]) -> Option<u64>
    requires least { FEW_DIGITS ≤ length field.now }
    requires most { length field.now ≤ MOST_DIGITS }
    ensures { result ≡ (if list_all is_ascii_digit field.now then value_in field.now else None) }
{
    let first = field[0];
    let lead = if field.len() == MOST_DIGITS {
        first
    } else {
        b'0'
    };
    if !lead.is_ascii_digit() {
        return None;
    }
    let Some(rest) = value_of_few(&field[field.len() - FEW_DIGITS..]) else {
        return None;
    };
    let value = LEAD_WEIGHT * u128::from(lead - b'0') + u128::from(rest);
    if value > u128::from(u64::MAX) {
        return None;
    }
    Some(value as u64)
}

/// The number that a field spells: 1 to 20 ASCII digits and nothing else, with a value below 2 ^ 64.
#[tactic(auto, unfolding(crate::specs::Reading::Number::number_in))]
pub(crate) fn number_of(field: &[u8]) -> Option<u64>
    ensures { result ≡ number_in field.now }
{
    match field.len() {
        0 => None,
        FEW_DIGITS | MOST_DIGITS => value_of_many(field),
        1..=FEW_DIGITS => value_of_few(field),
        _ => None,
    }
}
