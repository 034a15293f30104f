// What a script plays on beside the bytes of its buffers.
ghost use Rattle.std.specs.Prelude.{◌≡◌, ◌≤◌, set, replicate};
ghost use Rattle.writer_rules.specs.Writer.{zeros as noneWritten};
ghost use Rattle.reader_rules.specs.Reader.{reader_with};

use crate::say::words;
use reader_record::reader_with;
use reader_rules::Reader;
use slip_rules::Slip;
use writer::zeros;
use writer_rules::Writer;

// How many bytes of each buffer are in use, the records, and the slips: four tables, since a line names one of each by a number of its own. An index below
// four is a clause: a type for it would be opened again at each table.
#[derive(Clone, Copy)]
pub struct State {
    pub lengths: [usize; 4],
    pub writers: [Writer; 4],
    pub readers: [Reader; 4],
    pub slips: [Slip; 4],
}

pub fn fresh() -> State
    ensures lengths { result.lengths ≡ replicate 4 0 }
    ensures writers { result.writers ≡ replicate 4 noneWritten }
    ensures readers { result.readers ≡ replicate 4 (reader_with 0 0 0 0) }
    ensures slips { result.slips ≡ replicate 4 (record { position = 0; size = 0; sequence = 0; tail_seen = 0 }) }
{
    let writer = zeros();
    let reader = reader_with(0, 0, 0, 0);
    let slip = Slip {
        position: 0,
        size: 0,
        sequence: 0,
        tail_seen: 0,
    };
    State {
        lengths: [0; 4],
        writers: [writer; 4],
        readers: [reader; 4],
        slips: [slip; 4],
    }
}

// The same records, or lengths, but for one.
pub fn with<T: Copy>(items: [T; 4], i: usize, item: T) -> [T; 4]
    requires { i ≤ 3 }
    ensures { result ≡ set items i item }
{
    let mut next = items;
    next[i] = item;
    next
}

pub fn with_length(state: State, b: usize, length: usize) -> State
    requires { b ≤ 3 }
    ensures lengths { result.lengths ≡ set state.lengths b length }
    ensures writers { result.writers ≡ state.writers }
    ensures readers { result.readers ≡ state.readers }
    ensures slips { result.slips ≡ state.slips }
{
    State {
        lengths: with(state.lengths, b, length),
        ..state
    }
}

pub fn with_writer(state: State, w: usize, writer: Writer) -> State
    requires { w ≤ 3 }
    ensures lengths { result.lengths ≡ state.lengths }
    ensures writers { result.writers ≡ set state.writers w writer }
    ensures readers { result.readers ≡ state.readers }
    ensures slips { result.slips ≡ state.slips }
{
    State {
        writers: with(state.writers, w, writer),
        ..state
    }
}

pub fn with_reader(state: State, r: usize, reader: Reader) -> State
    requires { r ≤ 3 }
    ensures lengths { result.lengths ≡ state.lengths }
    ensures writers { result.writers ≡ state.writers }
    ensures readers { result.readers ≡ set state.readers r reader }
    ensures slips { result.slips ≡ state.slips }
{
    State {
        readers: with(state.readers, r, reader),
        ..state
    }
}

pub fn with_slip(state: State, s: usize, slip: Slip) -> State
    requires { s ≤ 3 }
    ensures lengths { result.lengths ≡ state.lengths }
    ensures writers { result.writers ≡ state.writers }
    ensures readers { result.readers ≡ state.readers }
    ensures slips { result.slips ≡ set state.slips s slip }
{
    State {
        slips: with(state.slips, s, slip),
        ..state
    }
}

// A line that is no command, or has a wrong field, changes nothing.
pub fn unknown(state: State) -> State
    ensures { result ≡ state }
{
    words(b"unknown\n");
    state
}
