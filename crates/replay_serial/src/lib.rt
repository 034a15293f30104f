// The lines on the listener: the one to whom a script feeds recordings in pieces.
#![tactic(auto)]

ghost use Rattle.std.specs.Prelude.{◌≡◌};
ghost use Rattle.serial_rules.specs.Feed.{feed};
ghost use Rattle.replay_serial.specs.Line.{fed_line, heard_line};
ghost use Rattle.serial_rules.specs.Step.{fresh_listener as nothingHeard};

use crate::tell::{fault, report};
use reading_rules::Fault;
use replay_state::room::buffer_room;
use replay_state::say;
use replay_words::Serial;
use script::field::field;
use script::hex::hex;
use serial::listener::fresh;
use serial_rules::{Listener, Report};
use table_rules::Refusal;

pub mod tell;

// A piece is used up by stepping, and each step's report is said at once. A step that uses nothing was refused, and so would be every further one.
fn take(l: Listener, piece: &[u8]) -> Listener
    ensures { result ≡ (feed l piece.now).listener }
{
    let mut listener = l;
    let mut at = 0;
    while at < piece.len() {
        let s = serial::step(listener, &piece[at..]);
        if s.used == 0 {
            return listener;
        }
        report(s.report, s.listener.kept, &piece[at..]);
        listener = s.listener;
        at += s.used;
    }
    listener
}

// 9 is asked of the whole piece, so a piece that isn't refused at its first step is refused at none.
fn answer(l: Listener, piece: &[u8]) -> Listener
    ensures { result ≡ (feed l piece.now).listener }
{
    match serial::step(l, piece).report {
        Report::Refused => say::refusal(Refusal::Far),
        _ => say::words(b"fed"),
    }
    take(l, piece)
}

// A line with a wrong field changes nothing.
fn feed(line: &[u8], l: Listener) -> Listener
    ensures { result ≡ fed_line line.now l }
{
    let mut bytes = buffer_room();
    let Some(n) = hex(field(line, 1), &mut bytes) else {
        say::words(b"unknown\n");
        return l;
    };
    let next = answer(l, &bytes[0..n]);
    say::words(b"\n");
    next
}

// The next piece begins another file.
fn end(l: Listener) -> Listener
    ensures { result ≡ nothingHeard }
{
    say::words(b"ended");
    match serial::end(l) {
        None => {}
        Some(place) => fault(Fault::Early, place),
    }
    say::words(b"\n");
    fresh()
}

// No buffer and no record comes here, so none is touched.
pub fn on_listener(word: Serial, line: &[u8], l: Listener) -> Listener
    ensures { result ≡ heard_line word line.now l }
{
    match word {
        Serial::Fresh => {
            say::words(b"ok\n");
            fresh()
        }
        Serial::Feed => feed(line, l),
        Serial::End => end(l),
    }
}
