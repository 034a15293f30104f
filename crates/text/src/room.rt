// A buffer of zeros, made apart from the code that uses it: there the checker needs its length and not its elements.
ghost use Rattle.std.specs.Prelude.{◌≡◌, length};

pub fn room<const N: usize>() -> [u8; N]
    ensures { N ≡ length result }
{
    [0; N]
}
