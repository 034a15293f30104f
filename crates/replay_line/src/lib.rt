// A line of any kind, taken to what it plays on.
#![tactic(auto)]

ghost use Rattle.std.specs.Prelude.{◌≡◌, ◌⊎◌, replicate};
ghost use Rattle.writer_rules.specs.Writer.{zeros as noneWritten};
ghost use Rattle.reader_rules.specs.Reader.{reader_with};
ghost use Rattle.serial_rules.specs.Step.{fresh_listener};

use replay_one::{on_one, on_size};
use replay_serial::on_listener;
use replay_setting::records;
use replay_state::say;
use replay_state::state::{State, fresh, unknown};
use replay_two::on_two;
use replay_words::{Command, command_of};
use serial::listener;
use serial_rules::Listener;

// The listener stands apart from the records and slips: its lines are given nothing else, and no other line is given it.
#[derive(Clone, Copy)]
pub struct Playing {
    pub records: State,
    pub listener: Listener,
}

pub fn begun() -> Playing
    ensures lengths { result.records.lengths ≡ replicate 4 0 }
    ensures writers { result.records.writers ≡ replicate 4 noneWritten }
    ensures readers { result.records.readers ≡ replicate 4 (reader_with 0 0 0 0) }
    ensures slips { result.records.slips ≡ replicate 4 (record { position = 0; size = 0; sequence = 0; tail_seen = 0 }) }
    ensures listener { result.listener ≡ fresh_listener }
{
    Playing {
        records: fresh(),
        listener: listener::fresh(),
    }
}

fn on_records(
    found: Command,
    line: &[u8],
    state: State,
    first: &mut [u8],
    second: &mut [u8],
    third: &mut [u8],
    fourth: &mut [u8],
    out: &mut [u8],
) -> State {
    match found {
        Command::Writer => records::set_writer(line, state),
        Command::Reader => records::set_reader(line, state),
        Command::Slip => replay_slips::set_slip(line, state),
        Command::Outsum => {
            say::sum(out);
            state
        }
        Command::Size => on_size(line, state, first, second, third, fourth),
        Command::Pair(word) => on_two(word, line, state, first, second, third, fourth),
        _ => on_one(found, line, state, first, second, third, fourth, out),
    }
}

// No line changes both the listener and any record or slip.
pub fn step(
    line: &[u8],
    state: Playing,
    first: &mut [u8],
    second: &mut [u8],
    third: &mut [u8],
    fourth: &mut [u8],
    out: &mut [u8],
) -> Playing
    ensures { (result.records ≡ state.records) ⊎ (result.listener ≡ state.listener) }
{
    let records = state.records;
    let listener = state.listener;
    match command_of(line) {
        None => Playing {
            records: unknown(records),
            listener,
        },
        Some(Command::Serial(word)) => Playing {
            records,
            listener: on_listener(word, line, listener),
        },
        Some(found) => Playing {
            records: on_records(found, line, records, first, second, third, fourth, out),
            listener,
        },
    }
}
