// Listeners that can't come about, past 2^62: it is asked first whether a listener is possible, so none is refused.
use crate::calls::{end, feed};
use replay_state::say::words;
use serial_rules::{Course, Listener, Stage};

fn listener(stage: Stage, held: usize, size: u8, events: u64, left: u64) -> Listener {
    let mut kept = [0u8; 32];
    kept[0] = size;
    let course = Course {
        stage,
        cpu_id: 3,
        place: 4611686018427387905,
        events,
        last: 7,
        left,
    };
    Listener { course, held, kept }
}

fn tried(name: &[u8], l: Listener) {
    words(name);
    feed(l, 2);
    words(name);
    feed(l, 0);
    words(name);
    end(l);
}

pub fn openings() {
    tried(
        b"opening with 8 bytes kept",
        listener(Stage::Opening, 8, 0, 0, 0),
    );
    tried(
        b"opening with 2^64 - 1 bytes kept",
        listener(Stage::Opening, 18446744073709551615, 0, 0, 0),
    );
}

// A header's event_size is 40, and a closing begins with zero bytes.
pub fn events() {
    tried(
        b"8 events and the last one's sequence 7",
        listener(Stage::Events, 0, 40, 8, 0),
    );
    tried(
        b"header with 32 bytes kept",
        listener(Stage::Events, 32, 40, 2, 0),
    );
    tried(
        b"payload with 1 byte kept",
        listener(Stage::Events, 1, 40, 2, 5),
    );
}

pub fn endings() {
    tried(
        b"closing with 24 bytes kept",
        listener(Stage::Events, 24, 0, 2, 0),
    );
    tried(
        b"after the closing with 1 byte kept",
        listener(Stage::After, 1, 0, 2, 0),
    );
    tried(
        b"after a fault with 1 byte kept",
        listener(Stage::Stopped, 1, 0, 2, 0),
    );
}
