// Lines 11 and 12.
use crate::lives::emitted;
use crate::print;
use create::create;
use replay_state::say::{number, words};
use word::number::Word;
use writer::zeros;

// Line 11: futex_counter 4,294,967,295 with need_wake 1.
pub fn counter_at_its_end() {
    let mut ring = [0u8; 8448];
    let _ = create(&mut ring, 3);
    u32::put(&mut ring, 128, 4294967295);
    ring[4096] = 1;
    let answer = emitted(&mut ring, zeros(), 0);
    words(b"11");
    let outcome = answer.outcome;
    print::outcome(outcome);
    number(b" counter ", u32::get(&ring, 128) as u64);
    words(b"\n");
}

// Line 12: a ring cut short by a byte, and one with a byte too many.
pub fn lengths() {
    let mut ring = [0u8; 8448];
    let _ = create(&mut ring, 3);
    words(b"12");
    print::kept(&ring[0..8447]);
    words(b"\n");
    let mut longer = [0u8; 8449];
    word::run::copy(&mut longer, 0, &ring);
    words(b"12");
    print::kept(&longer);
    words(b"\n");
}
