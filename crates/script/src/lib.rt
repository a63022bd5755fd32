// A script line and its answer: the line's numbers, their call on the script's ledger, the answer's text (document 01, "Script program").
#![tactic(auto)]

ghost use Rattle.std.specs.Prelude.{◌+◌, ◌≤◌, ◌≡◌, true, ◌++◌, length, take};
ghost use Rattle.protocol.specs.Memory.{memory};
ghost use Rattle.protocol.specs.Outcome.{outcome};
ghost use Rattle.field.specs.Field.{columns, max_number, field_of};
ghost use Rattle.script.specs.Lines.{min_fields, max_fields, field_count, numbers, has_numbers};
ghost use Rattle.script.specs.Session.{
  session,
  leaves,
  max_table,
  lent_length as lent_length_rule,
  fault_bound_for as fault_bound_for_rule,
  lending,
  answer_numbers as answer_numbers_rule,
  answer_line as answer_line_rule,
};
ghost use Rattle.script.specs.Text.{answer_text, answer_bytes, Printable};
ghost use Rattle.script.specs.inner.Reading.{line_read};

use field::COLUMNS;
use protocol::{Answer, Refusal, Values};
use reader::Reader;

// A line's fields.
const MIN_FIELDS: usize = 3;

pub const MAX_FIELDS: usize = 34;

const CODE_FIELD: usize = 0;

const REPLICA_FIELD: usize = 1;

const NUMBER_FIELD: usize = 2;

const LIST_FIELD: usize = 3;

// The code of an opening, a number in a line and in C.
const OPEN_CODE: u32 = 0;

pub const LINE_FEED: u8 = b'\n';

// Four fields and a line feed.
pub const ANSWER_BYTES: usize = 4 * COLUMNS + 1;

// Reads the numbers of a line, field after field; gives how many there are, or none where it is no line of numbers.
fn read_numbers(line: &[u8], given: &mut [u32]) -> Option<usize>
    requires { length given.old ≡ max_fields }
    ensures value { result ≡ line_read line.now }
    ensures given_after { has_numbers line.now ≡ true
        → take (field_count line.now) given.new ≡ numbers line.now (field_count line.now) }
{
    let count = line.len() / COLUMNS;
    if COLUMNS * count != line.len() || count < MIN_FIELDS || MAX_FIELDS < count {
        return None;
    }
    let mut reader = Reader { line, column: 0 };
    for place in &mut given[..count] {
        *place = reader.next()?;
    }
    Some(count)
}

// How many words of the table are lent for f.
fn lent_length(f: u32) -> usize
    ensures { (result ≡ lent_length_rule f) × (result ≤ max_table) }
{
    if form::is_fault_bound(f) {
        table::row_at(table::replica_count(f))
    } else {
        0
    }
}

// The f that a line's table is lent for.
fn fault_bound_for(in_use: u32, code: u32, replica: u32) -> u32
    ensures { result ≡ fault_bound_for_rule in_use code replica }
{
    if code == OPEN_CODE { replica } else { in_use }
}

// The call of a line of these numbers, on the memory that is lent for f. The table's length is a clause here and below, and
// no array's type: callers have slices.
fn call_lent(
    table: &mut [u32],
    log: &mut [u32],
    blocks: &mut [u32],
    f: u32,
    given: &[u32],
) -> Answer
    requires { (length table.old ≡ max_table) × (min_fields ≤ length given.now) }
    ensures { outcome result table.new log.new blocks.new
        ≡ lending f (memory table.old log.old blocks.old) given.now }
{
    let lent = lent_length(f);
    ledger::call_by_code(
        &mut table[..lent],
        log,
        blocks,
        given[CODE_FIELD],
        given[REPLICA_FIELD],
        given[NUMBER_FIELD],
        &given[LIST_FIELD..],
    )
}

// The answer to a line of these numbers.
fn answer_numbers(
    table: &mut [u32],
    log: &mut [u32],
    blocks: &mut [u32],
    fault_bound: &mut u32,
    given: &[u32],
) -> Answer
    requires { (length table.old ≡ max_table) × (min_fields ≤ length given.now) }
    ensures { leaves result fault_bound.new table.new log.new blocks.new
        ≡ answer_numbers_rule (session fault_bound.old table.old log.old blocks.old)
        given.now }
{
    let f = fault_bound_for(*fault_bound, given[CODE_FIELD], given[REPLICA_FIELD]);
    let answer = call_lent(table, log, blocks, f, given);
    if answer.is_ok() {
        *fault_bound = f;
    }
    answer
}

// The answer to a line.
pub fn answer_line(
    table: &mut [u32],
    log: &mut [u32],
    blocks: &mut [u32],
    fault_bound: &mut u32,
    line: &[u8],
) -> Answer
    requires { length table.old ≡ max_table }
    ensures { leaves result fault_bound.new table.new log.new blocks.new
        ≡ answer_line_rule (session fault_bound.old table.old log.old blocks.old)
        line.now }
{
    let mut given = [0u32; MAX_FIELDS];
    let Some(count) = read_numbers(line, &mut given) else {
        return Err(Refusal::Unreadable);
    };
    answer_numbers(table, log, blocks, fault_bound, &given[..count])
}

// Writes a number's eight columns, from an index on, by which the definition of the text goes too.
fn put_number(text: &mut [u8], at: usize, number: u32)
    requires { (at + columns ≤ length text.old) × (number ≤ max_number) }
    ensures { take (at + columns) text.new ≡ take at text.old ++ field_of number }
{
    let end = at + COLUMNS;
    field::write_columns(number, &mut text[at..end]);
}

// Writes the text of an answer, by its number and its values: whatever gives them.
pub fn put_answer(text: &mut [u8], at: usize, line: u32, number: u32, values: Values)
    requires answer_bytes_in_bounds { at + answer_bytes ≤ length text.old }
    requires line_le_max_number { (line ≤ max_number) × Printable (record { number = number; first = values.first; second = values.second }) }
    ensures { take (at + answer_bytes) text.new
        ≡ take at text.old ++ answer_text line (record { number = number; first = values.first; second = values.second }) }
{
    put_number(text, at, line);
    put_number(text, at + COLUMNS, number);
    put_number(text, at + 2 * COLUMNS, values.first);
    put_number(text, at + 3 * COLUMNS, values.second);
    text[at + 4 * COLUMNS] = LINE_FEED;
}
