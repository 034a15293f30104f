// Answers to standard output, by bytes: an answer goes out as far as it is known, and has no `Err` to hand on.
use crate::adler::adler32;
use crate::room::{BUFFER_ROOM, text_room};
use io::write_all;
use reader_rules::Reader;
use script::hex::put_hex;
use slip_rules::Slip;
use status::STDOUT_FILENO;
use table::paper_number;
use table_rules::Refusal;
use text::decimal::number_text;
use writer_rules::Writer;

pub fn words(bytes: &[u8]) {
    write_all(STDOUT_FILENO, bytes);
}

pub fn number(label: &[u8], n: u64) {
    words(label);
    let mut text = [0u8; 20];
    let end = number_text(n, &mut text);
    words(&text[..end]);
}

// No buffer is longer than 40,960 bytes, so that all of its bytes are written.
pub fn bytes(buffer: &[u8]) {
    if buffer.len() > BUFFER_ROOM {
        return;
    }
    let mut text = text_room();
    let end = put_hex(buffer, &mut text, 0);
    words(&text[0..end]);
}

pub fn refusal(refused: Refusal) {
    number(b"refused ", paper_number(refused) as u64);
    if let Refusal::Damaged(damage) = refused {
        number(b" at ", damage.position);
        number(b" why ", damage.reason as u64);
    }
}

// The record that a call hands back ends its line.
pub fn writer(record: Writer) {
    number(b" writer ", record.last);
    number(b" ", record.dropped);
    number(b" ", record.overwritten);
    words(b"\n");
}

pub fn reader(record: Reader) {
    number(b" reader ", record.read_pos);
    number(b" ", record.last);
    number(b" ", record.handed);
    number(b" ", record.generation);
    words(b"\n");
}

// A slip stands before the reader's record, which ends the line.
pub fn slip(copied: Slip) {
    number(b" slip ", copied.position);
    number(b" ", copied.size);
    number(b" ", copied.sequence);
    number(b" ", copied.tail_seen);
}

pub fn sum(bytes: &[u8]) {
    number(b"sum ", adler32(bytes));
    words(b"\n");
}
