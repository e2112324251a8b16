// What a day file says in bytes that have been read: numbers of two bytes, and the length of its rest.
ghost use Rattle.std.specs.Prelude.{◌≡◌, ◌+◌, ◌-◌, ◌*◌, ◌<◌};

// The number of two bytes, high byte first.
pub fn word_of(high: u8, low: u8) -> u16
    ensures { result ≡ high * 256 + low }
{
    u16::from(high) * 256 + u16::from(low)
}

// How long the rest of a file is, which its first four bytes tell: 'Four bytes: length of the rest'.
pub fn rest_of(length: usize) -> usize
    ensures { result ≡ length - 4 }
{
    length.saturating_sub(4)
}
