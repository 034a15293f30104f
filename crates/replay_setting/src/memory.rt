// The commands on the bytes of one buffer: size, put, get.
ghost use Rattle.std.specs.Prelude.{◌≡◌, ◌≤◌};

use replay_state::room::buffer_room;
use replay_state::say;
use replay_state::state::{State, unknown, with_length};
use script::field::field;
use script::hex::hex;
use script::number::number;
use word::run::copy;

pub fn size(line: &[u8], state: State, b: usize, buffer: &mut [u8]) -> State
    requires { b ≤ 3 }
    ensures { (result.writers ≡ state.writers) × (result.readers ≡ state.readers) × (result.slips ≡ state.slips) }
{
    let Some(n) = number(field(line, 2)) else {
        return unknown(state);
    };
    if n > buffer.len() as u64 {
        say::words(b"too long\n");
        return state;
    }
    buffer.fill(0);
    say::words(b"ok\n");
    with_length(state, b, n as usize)
}

pub fn put(line: &[u8], state: State, buffer: &mut [u8]) -> State
    ensures { result ≡ state }
{
    let mut bytes = buffer_room();
    let (Some(at), Some(n)) = (number(field(line, 2)), hex(field(line, 3), &mut bytes)) else {
        return unknown(state);
    };
    if at > buffer.len() as u64 || n > buffer.len() - at as usize {
        say::words(b"outside\n");
        return state;
    }
    copy(buffer, at as usize, &bytes[0..n]);
    say::words(b"ok\n");
    state
}

pub fn get(line: &[u8], state: State, buffer: &[u8]) -> State
    ensures { result ≡ state }
{
    let (Some(at), Some(n)) = (number(field(line, 2)), number(field(line, 3))) else {
        return unknown(state);
    };
    if at > buffer.len() as u64 || n > buffer.len() as u64 - at {
        say::words(b"outside\n");
        return state;
    }
    let start = at as usize;
    let end = (at + n) as usize;
    say::bytes(&buffer[start..end]);
    say::words(b"\n");
    state
}
