// Adler-32, by which a script asks for the sum of a buffer.
// high * 65536 + low; of no bytes it is 1.
pub fn adler32(bytes: &[u8]) -> u64 {
    let mut low = 1;
    let mut high = 0;
    for byte in bytes {
        low = (low + u64::from(*byte)) % 65521;
        high = (high + low) % 65521;
    }
    high * 65536 + low
}
