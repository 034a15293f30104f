// The parts of a text between single separators.
ghost use Rattle.std.specs.Prelude.{◌+◌, ◌≤◌, ◌≡◌, length, drop};
ghost use Rattle.script.specs.Field.{up_to, field_of, parts};

// The place of the first `byte` from `at` on, or the length of the text: where the part that begins at `at` ends.
pub fn seek(text: &[u8], at: usize, byte: u8) -> usize
    requires { at ≤ length text.now }
    ensures place { result ≡ at + length (up_to byte (drop at text.now)) }
    ensures within { (at ≤ result) × (result ≤ length text.now) }
{
    at + text[at..].iter().take_while(|x| **x != byte).count()
}

// Field k of a line, counted from 0; one that isn't there is empty, as one between two spaces is.
pub fn field(line: &[u8], k: usize) -> &[u8]
    ensures { result.now ≡ field_of k line.now }
{
    line.split(|byte| *byte == b' ').nth(k).unwrap_or(&[])
}

// How many fields a line has.
pub fn count_fields(line: &[u8]) -> usize
    ensures { result ≡ parts line.now }
{
    line.iter().filter(|byte| **byte == b' ').count() + 1
}
