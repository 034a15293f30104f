// How much room programs have for a ring and for a recording: fixed, so that no program's memory grows with its input. What is longer is refused.
ghost use Rattle.std.specs.Prelude.{◌≡◌, length};

use text::room::room;

// One byte more than the longest ring has.
pub const RING_ROOM: usize = 1056769;

pub const RECORDING_ROOM: usize = 1048608;

// One byte more than the longest recording has.
pub const FILE_ROOM: usize = 1048609;

pub fn ring_room() -> [u8; RING_ROOM]
    ensures { 1056769 ≡ length result }
{
    room()
}

pub fn recording_room() -> [u8; RECORDING_ROOM]
    ensures { 1048608 ≡ length result }
{
    room()
}

pub fn file_room() -> [u8; FILE_ROOM]
    ensures { 1048609 ≡ length result }
{
    room()
}
