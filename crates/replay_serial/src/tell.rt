// What a listener reports, as the words of an answer: each begins with a space.
use faults::fault_number;
use reading_rules::Fault;
use replay_state::say;
use serial_rules::Report;

pub fn fault(kind: Fault, place: u64) {
    say::number(b" fault ", fault_number(kind));
    say::number(b" at ", place);
}

// A header that stands in the piece has 32 bytes there.
fn header(piece: &[u8]) {
    say::words(b" header ");
    if 32 <= piece.len() {
        say::bytes(&piece[0..32]);
    }
}

// What a step over `piece` tells, after which `kept` is kept.
pub fn report(told: Report, kept: [u8; 32], piece: &[u8]) {
    match told {
        Report::Nothing => {}
        Report::Head => header(piece),
        Report::KeptHead => header(&kept),
        Report::Stretch(at, length) => {
            say::number(b" payload ", at);
            say::number(b" ", length);
        }
        Report::Counts(handed, missed) => {
            say::number(b" closing ", handed);
            say::number(b" ", missed);
        }
        Report::Fault(kind, place) => fault(kind, place),
        Report::Refused => {}
    }
}
