// The eight-column number: reading and writing one field (document 01, "Script program").
#![tactic(auto)]

ghost use Rattle.std.specs.Prelude.{ℕ, ◌≤◌, ◌<◌, ◌≡◌, ◌≢◌, length, slice_index, MatchOption, EachIndex};
ghost use Rattle.field.specs.Digits.{digit_count as digit_count_rule};
ghost use Rattle.field.specs.Field.{
  columns,
  blank,
  max_number,
  field_of,
  written,
  write_answer,
  write_field,
  unpadded,
  found,
  read_field,
  number_from,
};
ghost use Rattle.field.specs.inner.Writing.{Writable};

pub const COLUMNS: usize = 8;

const LAST_COLUMN: usize = 7;

const BLANK: u8 = b' ';

const DIGIT_ZERO: u8 = b'0';

// The greatest number of eight digits.
pub const MAX_NUMBER: u32 = 99_999_999;

// Nothing is written: there are not eight bytes, or the number has more digits.
#[derive(Clone, Copy, Debug, PartialEq, Eq)]
pub struct Unwritable;

// How many digits a number has: "a choice among eight ranges, from 0 to 9 up to 10,000,000 to 99,999,999" (document 02, #106). The contract
// lets no number come to the last line.
fn digit_count(number: u32) -> usize
    requires { number ≤ max_number }
    ensures { result ≡ digit_count_rule number }
{
    match number {
        0..=9 => 1,
        10..=99 => 2,
        100..=999 => 3,
        1_000..=9_999 => 4,
        10_000..=99_999 => 5,
        100_000..=999_999 => 6,
        1_000_000..=9_999_999 => 7,
        10_000_000..=99_999_999 => 8,
        _ => unreachable!(),
    }
}

// The field of a number that has one: blanks, then the digits over them from the last column on. Most numbers of an answer have one digit.
pub fn write_columns(number: u32, bytes: &mut [u8])
    requires { Writable number bytes.old }
    ensures { bytes.new ≡ field_of number }
{
    bytes.fill(BLANK);
    let count = digit_count(number);
    if count == 1 {
        bytes[LAST_COLUMN] = DIGIT_ZERO + number as u8;
        return;
    }
    let mut rest = number;
    for at in (COLUMNS - count..COLUMNS).rev() {
        bytes[at] = DIGIT_ZERO + (rest % 10) as u8;
        rest /= 10;
    }
}

// Writes the field of a number, or leaves the bytes untouched.
pub fn write_number(number: u32, bytes: &mut [u8]) -> Result<(), Unwritable>
    ensures { written (write_answer result) bytes.new ≡ write_field number bytes.old }
{
    if bytes.len() != COLUMNS || MAX_NUMBER < number {
        return Err(Unwritable);
    }
    write_columns(number, bytes);
    Ok(())
}

// The number that digits make, without a leading zero.
fn read_digits(digits: &[u8]) -> Option<u32>
    requires { (0 < length digits.now) × (length digits.now ≤ columns) }
    ensures { result ≡ found (unpadded digits.now) }
{
    if digits[0] == DIGIT_ZERO && digits.len() != 1 {
        return None;
    }
    let mut number = 0;
    for byte in digits {
        if !byte.is_ascii_digit() {
            return None;
        }
        number = 10 * number + u32::from(*byte - DIGIT_ZERO);
    }
    Some(number)
}

// The first column that is not blank.
fn first_filled(bytes: &[u8]) -> Option<usize>
    ensures { MatchOption result
        (EachIndex bytes.now (λ k. slice_index bytes.now k ≡ blank))
        (λ first. (first < length bytes.now) × (slice_index bytes.now first ≢ blank)
        × ((k : ℕ) → k < first → slice_index bytes.now k ≡ blank)) }
{
    bytes.iter().position(|byte| *byte != BLANK)
}

// The number in a field; none for bytes that are no field.
pub fn read_number(bytes: &[u8]) -> Option<u32>
    ensures { result ≡ found (read_field bytes.now) }
{
    if bytes.len() != COLUMNS {
        return None;
    }
    let first = first_filled(bytes)?;
    read_digits(&bytes[first..])
}

// The same for the field that starts at a column of a longer line; none starts where fewer than eight are left.
pub fn read_at(bytes: &[u8], at: usize) -> Option<u32>
    ensures { result ≡ found (number_from bytes.now at) }
{
    read_number(bytes.get(at..)?.get(..COLUMNS)?)
}
