// The words that begin a line, each with the number of fields that its line has.
#![tactic(auto)]

ghost use Rattle.std.specs.Prelude.{◌≡◌, ◌&&◌, eqb};
ghost use Rattle.script.specs.Field.{alike};

use script::field::{count_fields, field};

// A line that may change the bytes of the buffer that it names.
#[derive(Clone, Copy)]
pub enum Changing {
    Put,
    Create,
    Emit,
    Emitlen,
}

// A line that leaves the bytes of the buffer that it names.
#[derive(Clone, Copy)]
pub enum Looking {
    Get,
    Sum,
    Inspect,
    Attach,
    Read,
    Follow,
    Record,
    Copy,
    Confirm,
}

// A line on two buffers.
#[derive(Clone, Copy)]
pub enum Pair {
    Swap,
    Verify,
}

// A line on the listener.
#[derive(Clone, Copy)]
pub enum Serial {
    Fresh,
    Feed,
    End,
}

#[derive(Clone, Copy)]
pub enum Command {
    Size,
    Outsum,
    Writer,
    Reader,
    Slip,
    Pair(Pair),
    Changing(Changing),
    Looking(Looking),
    Serial(Serial),
}

// Each word, the number of fields that its line has, and its command. No word stands here twice.
static LINES: [(&[u8], usize, Command); 23] = [
    (b"size", 3, Command::Size),
    (b"outsum", 1, Command::Outsum),
    (b"writer", 5, Command::Writer),
    (b"reader", 6, Command::Reader),
    (b"slip", 6, Command::Slip),
    (b"swap", 4, Command::Pair(Pair::Swap)),
    (b"verify", 3, Command::Pair(Pair::Verify)),
    (b"put", 4, Command::Changing(Changing::Put)),
    (b"create", 3, Command::Changing(Changing::Create)),
    (b"emit", 7, Command::Changing(Changing::Emit)),
    (b"emitlen", 7, Command::Changing(Changing::Emitlen)),
    (b"get", 4, Command::Looking(Looking::Get)),
    (b"sum", 2, Command::Looking(Looking::Sum)),
    (b"inspect", 2, Command::Looking(Looking::Inspect)),
    (b"attach", 3, Command::Looking(Looking::Attach)),
    (b"read", 4, Command::Looking(Looking::Read)),
    (b"follow", 3, Command::Looking(Looking::Follow)),
    (b"record", 4, Command::Looking(Looking::Record)),
    (b"copy", 5, Command::Looking(Looking::Copy)),
    (b"confirm", 4, Command::Looking(Looking::Confirm)),
    (b"serial", 1, Command::Serial(Serial::Fresh)),
    (b"feed", 2, Command::Serial(Serial::Feed)),
    (b"end", 1, Command::Serial(Serial::End)),
];

// A word alone is no command: its line must have just as many fields as it takes.
fn begins(word: &[u8], fields: usize, command: &[u8], takes: usize) -> bool
    ensures { result ≡ (eqb fields takes && alike word.now command.now) }
{
    fields == takes && word == command
}

pub fn command_of(line: &[u8]) -> Option<Command> {
    let fields = count_fields(line);
    let word = field(line, 0);
    let found = LINES
        .iter()
        .find(|(name, takes, _)| begins(word, fields, name, *takes))?;
    Some(found.2)
}
