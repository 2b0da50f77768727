// Numbers of one width and another, and a choice between two tests.
ghost use Rattle.std.specs.Prelude.{◌≡◌, cond};
ghost use Rattle.base.specs.Number as number;

// The word of two bytes.
pub fn word(high: u8, low: u8) -> u16
    ensures { result ≡ number.word high low }
{
    u16::from_be_bytes([high, low])
}

pub fn high_byte(word: u16) -> u8
    ensures { result ≡ number.high_byte word }
{
    word.to_be_bytes()[0]
}

pub fn low_byte(word: u16) -> u8
    ensures { result ≡ number.low_byte word }
{
    word.to_be_bytes()[1]
}

// The low sixteen bits; `as` alone is proved only of a number that fits.
pub fn low_word(x: u64) -> u16
    ensures { result ≡ number.low_word x }
{
    (x & 0xffff) as u16
}

// A rule that goes by a test.
pub fn either(test: bool, yes: bool, no: bool) -> bool
    ensures { result ≡ cond test yes no }
{
    if test { yes } else { no }
}
