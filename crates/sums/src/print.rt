// What the sums say of an answer, a ring and a record, to standard output.
use emit_rules::Outcome;
use page::open::open;
use replay_state::say::{self, number, words};
use table_rules::Refusal;
use writer_rules::Writer;

// A refusal behind what stands in the line already.
pub fn refusal(refused: Refusal) {
    words(b" ");
    say::refusal(refused);
}

pub fn outcome(answer: Result<Outcome, Refusal>) {
    match answer {
        Ok(Outcome::Done) => words(b" done"),
        Ok(Outcome::Wake) => words(b" wake"),
        Ok(Outcome::Dropped) => words(b" dropped"),
        Err(refused) => refusal(refused),
    }
}

pub fn kept(ring: &[u8]) {
    match inspect::inspect(ring) {
        Ok(summary) => {
            number(b" kept ", summary.count);
            number(b" first ", summary.first);
            number(b" last ", summary.last);
        }
        Err(refused) => refusal(refused),
    }
}

// A ring's positions and generation, and what an inspection counts in it.
pub fn ring(bytes: &[u8]) {
    match open(bytes) {
        Ok(page) => {
            number(b" tail ", page.tail_pos);
            number(b" write ", page.write_pos);
            number(b" generation ", page.generation);
        }
        Err(refused) => refusal(refused),
    }
    kept(bytes);
}

pub fn writer(record: Writer) {
    number(b" | given ", record.last);
    number(b" dropped ", record.dropped);
    number(b" overwritten ", record.overwritten);
    words(b"\n");
}
