// Listeners that could come about: one byte before 2^62, there, and one byte past it.
ghost use Rattle.std.specs.Prelude.{◌≤◌};

use crate::calls::{end, feed};
use replay_state::say::number;
use serial_rules::{Course, Listener, Stage};

// Of as many bytes arrived; `never` has a listener of its own, at one place and of any events.
fn listener(stage: Stage, arrived: u64, held: usize, kept: [u8; 32], left: u64) -> Listener
    requires { held ≤ arrived }
{
    let course = Course {
        stage,
        cpu_id: 3,
        place: arrived - (held as u64),
        events: 2,
        last: 7,
        left,
    };
    Listener { course, held, kept }
}

// A piece is refused whole, also where its first byte would still fit.
fn before(name: &[u8], l: Listener) {
    number(name, 4611686018427387903);
    feed(l, 2);
    number(name, 4611686018427387903);
    let next = feed(l, 1);
    number(name, 4611686018427387904);
    feed(next, 1);
}

fn there(name: &[u8], l: Listener) {
    number(name, 4611686018427387904);
    feed(l, 1);
    number(name, 4611686018427387904);
    feed(l, 0);
    number(name, 4611686018427387904);
    end(l);
}

// No calls lead here, and a piece of no bytes would leave the file above 2^62.
fn past(name: &[u8], l: Listener) {
    number(name, 4611686018427387905);
    feed(l, 1);
    number(name, 4611686018427387905);
    feed(l, 0);
    number(name, 4611686018427387905);
    end(l);
}

fn around(name: &[u8], stage: Stage, held: usize, kept: [u8; 32], left: u64)
    requires { held ≤ 32 }
{
    before(name, listener(stage, 4611686018427387903, held, kept, left));
    there(name, listener(stage, 4611686018427387904, held, kept, left));
    past(name, listener(stage, 4611686018427387905, held, kept, left));
}

// Of cpu 3.
pub fn beginnings() {
    let mut kept = [0u8; 32];
    kept[0] = b'S';
    kept[1] = b'P';
    kept[2] = b'L';
    kept[3] = 1;
    kept[5] = 3;
    around(
        b"opening of which 3 bytes are kept at ",
        Stage::Opening,
        3,
        kept,
        0,
    );
    around(
        b"opening of which 7 bytes are kept at ",
        Stage::Opening,
        7,
        kept,
        0,
    );
}

// A header of an event of 40 bytes with sequence 8.
pub fn events() {
    let mut kept = [0u8; 32];
    kept[0] = 40;
    kept[4] = 32;
    kept[6] = 3;
    kept[8] = 8;
    around(b"between events at ", Stage::Events, 0, kept, 0);
    around(
        b"header of which 12 bytes are kept at ",
        Stage::Events,
        12,
        kept,
        0,
    );
    around(
        b"header of which 31 bytes are kept at ",
        Stage::Events,
        31,
        kept,
        0,
    );
    around(
        b"payload of which 5 bytes are left at ",
        Stage::Events,
        0,
        kept,
        5,
    );
}

// A closing after 2 events, the last of which had sequence 7.
pub fn endings() {
    let mut kept = [0u8; 32];
    kept[8] = 2;
    kept[16] = 5;
    around(
        b"closing of which 10 bytes are kept at ",
        Stage::Events,
        10,
        kept,
        0,
    );
    around(
        b"closing of which 23 bytes are kept at ",
        Stage::Events,
        23,
        kept,
        0,
    );
    around(b"after the closing at ", Stage::After, 0, kept, 0);
    around(b"after a fault at ", Stage::Stopped, 0, kept, 0);
}
