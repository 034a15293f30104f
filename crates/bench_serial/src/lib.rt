// A whole file listened to in pieces of one size, for the measurement in bench/ alone: by strides wherever they can be made, else by steps. Every report
// goes into one sum, so that none can be left out.
#![tactic(auto)]

ghost use Rattle.std.specs.Prelude.{◌≡◌, ◌%◌, ◌^◌};
ghost use Rattle.bench_serial.specs.Listened.{end_number, piece_size, listened};

use crate::hear::hear;
use serial::end;
use serial::listener::fresh;
use serial_rules::Listener;

pub mod hear;
pub mod reports;
pub mod run;

// How far a piece has been listened to, and the sum so far: by strides, whose state is a course, or by a listener.
#[derive(Clone, Copy)]
pub struct Reached<S> {
    pub state: S,
    pub at: usize,
    pub sum: u64,
}

// What a piece leaves: the listener, and the sum of all reports so far.
#[derive(Clone, Copy)]
pub struct Hearing {
    pub listener: Listener,
    pub sum: u64,
}

fn end_number(ending: Option<u64>) -> u64
    ensures { result ≡ end_number ending % 2 ^ 64 }
{
    match ending {
        None => 0,
        Some(length) => 8u64.wrapping_add(length),
    }
}

fn piece_size(size: u64, all: usize) -> usize
    ensures { result ≡ piece_size size all }
{
    if size == 0 {
        return all;
    }
    size as usize
}

// No `chunks`, which would ask for a size above 0 of an empty file too.
pub fn bench_listen(file: &[u8], size: u64) -> u64
    ensures { result ≡ listened size file.now }
{
    let most = piece_size(size, file.len());
    let mut state = fresh();
    let mut sum = 0;
    let mut at = 0;
    while at < file.len() {
        let stop = at + most.min(file.len() - at);
        let heard = hear(state, &file[at..stop], sum);
        state = heard.listener;
        sum = heard.sum;
        at = stop;
    }
    let ending = end(state);
    sum.wrapping_add(end_number(ending))
}
