// How much room a script has, one byte more than it may have: what is longer is refused.
ghost use Rattle.std.specs.Prelude.{◌≡◌, length};

use text::room::room;

pub const SCRIPT_ROOM: usize = 1048577;

pub fn script_room() -> [u8; SCRIPT_ROOM]
    ensures { 1048577 ≡ length result }
{
    room()
}
