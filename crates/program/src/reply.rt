// RULES 8.10: where a reply goes, and the status with it, by the reply's kind.
ghost use Rattle.std.specs.Prelude.{◌≡◌};
ghost use Rattle.program.specs.Given.{is_answer, ended_with};

use refusal_text::Kind;
use status::{Ended, STATUS_FILENO, STDERR_FILENO, STDOUT_FILENO, digit};

fn is_answer(kind: Kind) -> bool
    ensures { result ≡ is_answer kind }
{
    kind != Kind::Hindrance
}

fn ended_with(kind: Kind) -> Ended
    ensures { result ≡ ended_with kind }
{
    if kind == Kind::Wanted {
        Ended::Good
    } else {
        Ended::Other
    }
}

// No contract can say what is written: these two decide it.
pub fn give(kind: Kind, bytes: &[u8]) {
    if is_answer(kind) {
        io::write_all(STDOUT_FILENO, bytes);
    } else {
        io::write_all(STDERR_FILENO, bytes);
    }
    io::write_all(STATUS_FILENO, &digit(ended_with(kind)));
}
