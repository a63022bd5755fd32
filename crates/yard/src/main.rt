// yard: reads a script from standard input, and writes the answers to standard output (document 01, "Script program").
#![tactic(auto)]

ghost use Rattle.std.specs.Prelude.{◌≡◌, take};
ghost use Rattle.stream.specs.Stream.{new_stream};
ghost use Rattle.stream.specs.Turns.{taken, Ran};
ghost use Rattle.yard.specs.inner.Writing.{stream_in, InPlace, Flushed, Written};

use std::io::{Read, Stdin, Stdout, Write};
use stream::{MAX_LINES, Progress};

// How often a read, or a text's writes, may fail: a signal may have come in between.
const TRIES: u32 = 64;

// How many bytes are read at once. There is room for an answer to each, as each could be a line feed.
const CHUNK_BYTES: usize = 8192;

const TEXT_BYTES: usize = script::ANSWER_BYTES * CHUNK_BYTES;

// The slots for certificates and blocks.
const CERTIFICATES: usize = 2048;

const BLOCKS: usize = 1024;

// The words that are lent.
const TABLE_WORDS: usize = table::ROW_START + table::MAX_REPLICAS * table::REPLICA_WORDS;

const LOG_WORDS: usize = CERTIFICATES * certificate_log::CERTIFICATE_WORDS;

const BLOCKS_WORDS: usize = BLOCKS * blocks::BLOCK_WORDS;

// Reads once, and again where that fails. Gives how many bytes came, 0 at the end of the input, or none where each read fails.
fn read_chunk(mut input: Stdin, chunk: &mut [u8; CHUNK_BYTES]) -> Option<usize> {
    for _ in 0..TRIES {
        if let Ok(got) = input.read(chunk) {
            return Some(got);
        }
    }
    None
}

// Writes a text, in several parts where need be; gives none where not all of it was written.
fn write_text(mut output: Stdout, text: &[u8]) -> Option<()> {
    let mut rest = text;
    let mut tries = TRIES;
    // A turn for each write: only the system knows how much it takes.
    while !rest.is_empty() {
        let put = output.write(rest).unwrap_or(0);
        if put == 0 {
            tries -= 1;
            if tries == 0 {
                return None;
            }
        }
        rest = &rest[put..];
    }
    Some(())
}

// The words that are lent, the places for a line, for text and for a chunk of the input, and where the stream stands.
#[derive(Drop)]
struct Machine {
    table: [u32; TABLE_WORDS],
    log: [u32; LOG_WORDS],
    blocks: [u32; BLOCKS_WORDS],
    line: [u8; stream::HELD_PLACES],
    text: [u8; TEXT_BYTES],
    chunk: [u8; CHUNK_BYTES],
    progress: Progress,
}

impl Machine {
    // Takes what a read gave: all bytes that came, or the end of the input. The text of the answers is then to be written.
    fn take_read(&mut self, got: usize)
        requires { Flushed self.old.progress }
        ensures text_after { stream_in self.new ≡ taken (stream_in self.old) (take got self.old.chunk) }
        ensures in_place { InPlace self.new.progress }
    {
        let n = got.min(CHUNK_BYTES);
        let Machine {
            table,
            log,
            blocks,
            line,
            text,
            chunk,
            progress,
        } = self;
        if n == 0 {
            stream::finish(table, log, blocks, line, text, progress);
        } else {
            stream::feed(table, log, blocks, line, text, progress, &chunk[..n]);
        }
    }

    // Writes the text that is to be written.
    fn write_pending(&mut self, output: Stdout) -> Option<()>
        requires { InPlace self.old.progress }
        ensures { Written self.old result self.new }
    {
        write_text(output, &self.text[..self.progress.pending])?;
        self.progress.pending = 0;
        Some(())
    }

    // Reads, answers and writes, until the input ends, line 99,999,999 is answered, or a read or a write fails. A proved loop ends: it
    // counts its turns, up to a number that no run comes to.
    fn run(&mut self, input: Stdin, output: Stdout)
        requires { Flushed self.old.progress }
        ensures { Ran (stream_in self.old) (stream_in self.new) }
    {
        for _ in 0..u64::MAX {
            let Some(got) = read_chunk(input, &mut self.chunk) else {
                return;
            };
            self.take_read(got);
            if self.write_pending(output).is_none()
                || got == 0
                || self.progress.lines == MAX_LINES
            {
                return;
            }
        }
    }

    // Runs from what the program starts with: nothing is opened, read or held.
    fn starts(&mut self, input: Stdin, output: Stdout)
        requires { (stream_in self.old ≡ new_stream) × Flushed self.old.progress }
        ensures { Ran new_stream (stream_in self.new) }
    {
        self.run(input, output);
    }
}

fn main(rt: HostRuntime) {
    let mut machine = Machine {
        table: [0; TABLE_WORDS],
        log: [0; LOG_WORDS],
        blocks: [0; BLOCKS_WORDS],
        line: [0; stream::HELD_PLACES],
        text: [0; TEXT_BYTES],
        chunk: [0; CHUNK_BYTES],
        progress: Progress {
            fault_bound: 0,
            lines: 0,
            held: 0,
            pending: 0,
        },
    };
    machine.starts(rt.stdin(), rt.stdout());
}
