// How much room a script's buffer has, and its bytes as text, two digits for each.
ghost use Rattle.std.specs.Prelude.{◌≡◌, length};

use text::room::room;

pub const BUFFER_ROOM: usize = 40960;

pub const TEXT_ROOM: usize = 2 * BUFFER_ROOM;

pub fn buffer_room() -> [u8; BUFFER_ROOM]
    ensures { 40960 ≡ length result }
{
    room()
}

pub fn text_room() -> [u8; TEXT_ROOM]
    ensures { 81920 ≡ length result }
{
    room()
}
