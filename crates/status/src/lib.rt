// RULES 8.10: how a program has ended, as one digit for descriptor 3, since a program has no exit status of its own. `./ring` reads it there; where nobody
// listens the digit can't be written, and that is no fault.
#![tactic(auto)]

ghost use Rattle.std.specs.Prelude.{◌≡◌};
ghost use Rattle.status.specs.Status.{digit_of};

// The descriptors that a program has open.
pub const STDIN_FILENO: i32 = 0;

pub const STDOUT_FILENO: i32 = 1;

pub const STDERR_FILENO: i32 = 2;

pub const STATUS_FILENO: i32 = 3;

// With the good answer; with the other answer, or with none. The numbers are the digits.
#[derive(Clone, Copy)]
pub enum Ended {
    Good = 0,
    Other = 1,
}

pub fn digit(ended: Ended) -> [u8; 1]
    ensures { result ≡ digit_of ended }
{
    [b'0' + ended as u8]
}
