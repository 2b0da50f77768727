// The 16-bit CRC with polynomial 1021h, most significant bit first, over words and over bytes, with no table.
#![tactic(auto)]

mod held;
mod wide;

ghost use Rattle.std.specs.Prelude.{◌≡◌};
ghost use Rattle.crc.specs.Crc.{crc_step, crc_words, crc_bytes};

// The register at the start of a message.
pub const START: u16 = 0xffff;

// A message of words: the first ones, so that the rest are whole blocks of four, and then block by block. The shortest go before all else, here and in
// `bytes`, so that they pay for no block: with the test in `let` alone they took a third more time.
pub fn words(start: u16, message: &[u16]) -> u16
    ensures { result ≡ crc_words start message.now }
{
    if message.len() < 4 {
        return few_words(start, message);
    }
    let (head, blocks) = message.as_rchunks::<4>();
    let (Some(first), Some((next, rest))) = (message.first_chunk::<4>(), blocks.split_first())
    else {
        return few_words(start, message);
    };
    let begun = held::begin(start, held::pack(first), head.len(), held::pack(next));
    let mut w = wide::widen(begun);
    for block in rest {
        w = wide::join(w, wide::pack(block));
    }
    held::register(wide::narrow(w))
}

// One word at a time. What this shares with `few_bytes` is std's `fold`: a word goes in whole, and a byte at the top.
fn few_words(start: u16, message: &[u16]) -> u16
    ensures { result ≡ crc_words start message.now }
{
    message.iter().fold(start, |r, word| next_word(r, *word))
}

fn next_word(r: u16, word: u16) -> u16
    ensures { result ≡ crc_step 16 r word }
{
    crc_division::sixteen(r ^ word)
}

// A message of bytes: an odd one, and then as words, two bytes to a word. The loop is not that of `words`: eight bytes make a block with its first word
// highest, which `held` takes as it is, and `wide` the other way round.
pub fn bytes(start: u16, message: &[u8]) -> u16
    ensures { result ≡ crc_bytes start message.now }
{
    if message.len() < 8 {
        return few_bytes(start, message);
    }
    let (front, pairs) = message.split_at(message.len() % 2);
    let r = few_bytes(start, front);
    let (head, blocks) = pairs.as_rchunks::<8>();
    let (Some(first), Some((next, rest))) = (pairs.first_chunk::<8>(), blocks.split_first()) else {
        return few_bytes(r, pairs);
    };
    let mut h = held::begin(
        r,
        held::pack_bytes(first),
        head.len() / 2,
        held::pack_bytes(next),
    );
    for block in rest {
        h = held::join(h, held::pack_bytes(block));
    }
    held::register(h)
}

// One byte at a time.
fn few_bytes(start: u16, message: &[u8]) -> u16
    ensures { result ≡ crc_bytes start message.now }
{
    message.iter().fold(start, |r, byte| next_byte(r, *byte))
}

fn next_byte(r: u16, byte: u8) -> u16
    ensures { result ≡ crc_step 8 r byte }
{
    crc_division::eight(r ^ (u16::from(byte) << 8))
}
