// The lives of rings that lines 1 to 10 tell of.
ghost use Rattle.std.specs.Prelude.{◌≤◌, length};

use crate::print;
use create::create;
use emit::emit;
use emit_rules::{Label, Outcome};
use reader::attach::attach;
use reader::read::read;
use reader_record::reader_with;
use reader_rules::{Reader, Reading};
use replay_state::say::{number, words};
use swap::swap;
use word::number::Word;
use writer::zeros;
use writer_rules::{Writer, Written};

fn fresh_reader() -> Reader {
    reader_with(0, 0, 0, 0)
}

// An event with `size` zero bytes of payload.
pub fn emitted(ring: &mut [u8], writer: Writer, size: usize) -> Written<Outcome>
    requires { size ≤ 480 }
{
    let payload = [0u8; 480];
    let label = Label {
        timestamp: 0,
        event_type: 1,
        origin_class: 0,
    };
    emit(ring, writer, label, &payload[0..size])
}

// One more event, shown under a line of the sums.
fn shown(line: u64, ring: &mut [u8], writer: Writer, size: usize) -> Writer
    requires { size ≤ 480 }
{
    let answer = emitted(ring, writer, size);
    number(b"", line);
    let outcome = answer.outcome;
    print::outcome(outcome);
    print::ring(ring);
    print::writer(answer.writer);
    answer.writer
}

// Where the header of event 7 lies, and how much of it before the data's end.
fn wrapped(ring: &[u8])
    requires { 8448 ≤ length ring.now }
{
    number(b"4 at offset 160 sequence ", u64::get(ring, 8360));
    number(b" size ", u32::get(ring, 8352) as u64);
    number(b" first stretch ", 256 - 160);
    words(b"\n");
}

fn one_read(ring: &[u8], reader: Reader, out: &mut [u8]) -> Reader {
    let answer = read(ring, reader, out);
    let what = answer.answer;
    match what {
        Ok(Reading::Event(size)) => {
            number(b"6 event ", answer.reader.last);
            number(b" size ", size);
        }
        Ok(Reading::Empty) => words(b"6 empty"),
        Ok(Reading::Moved) => words(b"6 moved"),
        Err(refused) => print::refusal(refused),
    }
    number(b" at ", answer.reader.read_pos);
    let last = answer.reader.last;
    let handed = answer.reader.handed;
    if handed <= last {
        number(b" missed ", last - handed);
    }
    words(b"\n");
    answer.reader
}

// Line 7: the ring of lines 1 to 6, swapped to 512.
fn swapped_to_512(ring: &mut [u8], writer: Writer) {
    let mut larger = [0u8; 8704];
    let answer = swap(ring, &mut larger, writer);
    words(b"7 new");
    print::ring(&larger);
    print::writer(answer.writer);
    words(b"7 old");
    print::ring(ring);
    words(b"\n");
}

// Lines 1 to 7.
pub fn one_ring() {
    let mut ring = [0u8; 8448];
    let _ = create(&mut ring, 3);
    let reader = attach(&ring, fresh_reader()).reader;
    let mut writer = zeros();
    writer = shown(1, &mut ring, writer, 32);
    writer = shown(1, &mut ring, writer, 32);
    writer = shown(1, &mut ring, writer, 32);
    writer = shown(1, &mut ring, writer, 32);
    writer = shown(2, &mut ring, writer, 0);
    writer = shown(3, &mut ring, writer, 96);
    writer = shown(4, &mut ring, writer, 96);
    wrapped(&ring);
    writer = shown(5, &mut ring, writer, 97);
    let mut out = [0u8; 256];
    let once = one_read(&ring, reader, &mut out);
    let twice = one_read(&ring, once, &mut out);
    one_read(&ring, twice, &mut out);
    swapped_to_512(&mut ring, writer);
}

// Line 8: sizes 32 and 256 in a ring of 512, swapped to 256.
pub fn larger_first() {
    let mut ring = [0u8; 8704];
    let _ = create(&mut ring, 3);
    let first = emitted(&mut ring, zeros(), 0).writer;
    let second = emitted(&mut ring, first, 224).writer;
    let mut smaller = [0u8; 8448];
    let answer = swap(&mut ring, &mut smaller, second);
    words(b"8 new");
    print::ring(&smaller);
    print::writer(answer.writer);
}

// Line 9: one event of 512 in a ring of 1024, swapped to 256.
pub fn nothing_fits() {
    let mut ring = [0u8; 9216];
    let _ = create(&mut ring, 3);
    let only = emitted(&mut ring, zeros(), 480).writer;
    let mut smaller = [0u8; 8448];
    let answer = swap(&mut ring, &mut smaller, only);
    words(b"9 new");
    print::ring(&smaller);
    print::writer(answer.writer);
}

fn two_alike(ring: &mut [u8], writer: Writer, size: usize) -> Writer
    requires { size ≤ 480 }
{
    let first = emitted(ring, writer, size).writer;
    emitted(ring, first, size).writer
}

// Line 10: sizes 32, 32, 256, 256 into a ring.
fn four_events(ring: &mut [u8]) {
    let _ = create(ring, 3);
    let small = two_alike(ring, zeros(), 0);
    let large = two_alike(ring, small, 224);
    words(b"10");
    print::ring(ring);
    print::writer(large);
}

pub fn two_capacities() {
    let mut smaller = [0u8; 8448];
    four_events(&mut smaller);
    let mut larger = [0u8; 8704];
    four_events(&mut larger);
}
