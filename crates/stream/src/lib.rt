// Bytes to lines to answers (document 01, "Script program").
#![tactic(auto)]

ghost use Rattle.std.specs.Prelude.{ℕ, ◌≡◌, ◌++◌, length, take, List};
ghost use Rattle.stream.specs.Stream.{end_line, fed, finished, stream_of};
ghost use Rattle.stream.specs.inner.Progress.{with_held, begun, Room, OneMore, Ready, Within};
ghost use Rattle.stream.specs.inner.Holding.{Holdable, Held};

use memchr::memchr;
use protocol::{number_in, values_in};
use script::{ANSWER_BYTES, LINE_FEED};

// One more byte than a readable line can have.
pub const HELD_PLACES: usize = field::COLUMNS * script::MAX_FIELDS + 1;

// Reading stops after this line.
pub const MAX_LINES: u32 = field::MAX_NUMBER;

// Where a stream stands: the f in use, how many lines were answered, how many bytes of a line are held, how many are to be written. The
// bytes themselves are in slices that are lent beside it: nothing is allocated.
#[derive(Clone, Copy)]
pub struct Progress {
    // 0 before the first opening, as the definition has it
    pub fault_bound: u32,
    pub lines: u32,
    pub held: usize,
    pub pending: usize,
}

// Holds bytes of a line that goes on in the next chunk, as far as there are places; gives how many are held then.
fn hold(line: &mut [u8], held: usize, bytes: &[u8]) -> usize
    requires { Holdable line.old held }
    ensures { Held result line.new (take held line.old ++ bytes.now) }
{
    let count = (HELD_PLACES - held).min(bytes.len());
    line[held..held + count].copy_from_slice(&bytes[..count]);
    held + count
}

// Answers a line, and puts the answer after what is to be written.
fn answer(
    table: &mut [u32],
    log: &mut [u32],
    blocks: &mut [u32],
    text: &mut [u8],
    p: &mut Progress,
    line: &[u8],
)
    requires { Room p.old table.old text.old }
    ensures by_index { (places : List ℕ) → stream_of p.new table.new log.new blocks.new places text.new
        ≡ end_line (with_held (stream_of p.old table.old log.old blocks.old places text.old)
        line.now) }
    ensures one_more { OneMore p.old p.new }
{
    let answer = script::answer_line(table, log, blocks, &mut p.fault_bound, line);
    p.lines += 1;
    script::put_answer(
        text,
        p.pending,
        p.lines,
        number_in(answer),
        values_in(answer),
    );
    p.held = 0;
    p.pending += ANSWER_BYTES;
}

// Answers the line that ends with bytes of a chunk: straight from the chunk, where nothing of it is held.
fn answer_from(
    table: &mut [u32],
    log: &mut [u32],
    blocks: &mut [u32],
    line: &mut [u8],
    text: &mut [u8],
    p: &mut Progress,
    bytes: &[u8],
)
    requires room { Room p.old table.old text.old }
    requires holdable { Holdable line.old p.old.held }
    ensures text_after { stream_of p.new table.new log.new blocks.new line.new text.new
        ≡ end_line (begun (stream_of p.old table.old log.old blocks.old line.old
        text.old) (take p.old.held line.old ++ bytes.now)) }
    ensures one_more { OneMore p.old p.new }
{
    if p.held == 0 {
        answer(table, log, blocks, text, p, bytes);
        return;
    }
    let held = hold(line, p.held, bytes);
    answer(table, log, blocks, text, p, &line[..held]);
}

// Takes a chunk of the input. The text of the answers is then to be written. The slices are lent one by one, of the lengths that callers
// have.
pub fn feed(
    table: &mut [u32],
    log: &mut [u32],
    blocks: &mut [u32],
    line: &mut [u8],
    text: &mut [u8],
    p: &mut Progress,
    chunk: &[u8],
)
    requires { Ready p.old table.old line.old text.old (length chunk.now) }
    ensures text_after { stream_of p.new table.new log.new blocks.new line.new text.new
        ≡ fed (stream_of p.old table.old log.old blocks.old line.old text.old)
        chunk.now }
    ensures within { Within p.new text.old }
{
    let mut rest = chunk;
    // A turn for each line: the chunk's bytes tell how many there are.
    while p.lines < MAX_LINES {
        let Some(end) = memchr(LINE_FEED, rest) else {
            p.held = hold(line, p.held, rest);
            return;
        };
        answer_from(table, log, blocks, line, text, p, &rest[..end]);
        rest = &rest[end + 1..];
    }
}

// The end of the input: a last line may lack its line feed.
pub fn finish(
    table: &mut [u32],
    log: &mut [u32],
    blocks: &mut [u32],
    line: &mut [u8],
    text: &mut [u8],
    p: &mut Progress,
)
    requires { Ready p.old table.old line.old text.old 1 }
    ensures text_after { stream_of p.new table.new log.new blocks.new line.new text.new
        ≡ finished (stream_of p.old table.old log.old blocks.old line.old text.old) }
    ensures within { Within p.new text.old }
{
    if p.held != 0 {
        feed(table, log, blocks, line, text, p, &[LINE_FEED]);
    }
}
