// The commands that set records: any numbers are taken.
ghost use Rattle.std.specs.Prelude.{◌≡◌, ◌≤◌, IfSome};

use reader_record::reader_with;
use reader_rules::Reader;
use replay_state::say::words;
use replay_state::state::{State, unknown, with_reader, with_writer};
use script::field::field;
use script::number::{number, number_to};
use writer::writer_with;
use writer_rules::Writer;

// The number that a record goes under, and the record.
fn writer_of(line: &[u8]) -> Option<(usize, Writer)>
    ensures { IfSome result (λ found. found.0 ≤ 3) }
{
    let w = number_to(field(line, 1), 3)?;
    let last = number(field(line, 2))?;
    let dropped = number(field(line, 3))?;
    let overwritten = number(field(line, 4))?;
    Some((w, writer_with(last, dropped, overwritten)))
}

pub fn set_writer(line: &[u8], state: State) -> State
    ensures { (result.lengths ≡ state.lengths) × (result.readers ≡ state.readers) × (result.slips ≡ state.slips) }
{
    let Some((w, writer)) = writer_of(line) else {
        return unknown(state);
    };
    words(b"ok\n");
    with_writer(state, w, writer)
}

fn reader_of(line: &[u8]) -> Option<(usize, Reader)>
    ensures { IfSome result (λ found. found.0 ≤ 3) }
{
    let r = number_to(field(line, 1), 3)?;
    let read_pos = number(field(line, 2))?;
    let last = number(field(line, 3))?;
    let handed = number(field(line, 4))?;
    let generation = number(field(line, 5))?;
    Some((r, reader_with(read_pos, last, handed, generation)))
}

pub fn set_reader(line: &[u8], state: State) -> State
    ensures { (result.lengths ≡ state.lengths) × (result.writers ≡ state.writers) × (result.slips ≡ state.slips) }
{
    let Some((r, reader)) = reader_of(line) else {
        return unknown(state);
    };
    words(b"ok\n");
    with_reader(state, r, reader)
}
