// A message so far, held as eight words that have its register: the polynomial divides x^128 + x^96 + x^40 + 1, so four words are
// put down again 4, 11 and 16 bytes later, and division waits until the end.
ghost use Rattle.std.specs.Prelude.{◌≡◌, ℕ, ◌*◌, ◌<◌, ◌≤◌, take};
ghost use Rattle.crc_division.specs.Blocks.{lanes};
ghost use Rattle.crc_division.specs.Folding.{high_lanes, after_high};
ghost use Rattle.crc.specs.Crc.{crc_words, crc_bytes};
ghost use Rattle.crc.specs.Held.{register_of};

use base::number;

// Eight words, four to a block; a block has its first word highest, as the bits go by.
#[derive(Clone, Copy)]
pub struct Held {
    pub first: u64,
    pub second: u64,
}

// The block of four words.
pub fn pack(words: &[u16; 4]) -> u64
    ensures { high_lanes result ≡ words.now }
{
    let [a, b, c, d] = *words;
    u64::from(d) ^ (u64::from(c) << 16) ^ (u64::from(b) << 32) ^ (u64::from(a) << 48)
}

// The block of eight bytes: its words, or the first of them, do what their bytes do.
pub fn pack_bytes(bytes: &[u8; 8]) -> u64
    ensures whole { (r : ℕ) → after_high r result ≡ crc_bytes r bytes.now }
    ensures front { (r k : ℕ) → k ≤ 4 → crc_words r (take k (high_lanes result)) ≡ crc_bytes r (take (2 * k) bytes.now) }
{
    u64::from_be_bytes(*bytes)
}

// The register, as many words as make the rest of a message whole blocks, and the block after them. The words end the first
// block; the register is in its first word, or else in the second block.
pub fn begin(r: u16, first: u64, count: usize, next: u64) -> Held
    requires { count < 4 }
    ensures { register_of result ≡ after_high (crc_words r (take count (high_lanes first))) next }
{
    let top = u64::from(r) << 48;
    let bits = 16 * count;
    Held {
        first: (first ^ top) >> (48 - bits) >> 16,
        second: next ^ (top << bits),
    }
}

// A block more: the first four words are put down again, and it takes the last place.
pub fn join(h: Held, block: u64) -> Held
    ensures { register_of result ≡ after_high (register_of h) block }
{
    let t = h.first ^ (h.first >> 32);
    Held {
        first: (t << 32) ^ (t >> 24) ^ h.second,
        second: t ^ (t << 40) ^ block,
    }
}

// The block with its first word lowest, or the other way round.
pub fn turned(block: u64) -> u64
    ensures { (lanes result ≡ high_lanes block) × (high_lanes result ≡ lanes block) }
{
    pack(&[
        number::low_word(block),
        number::low_word(block >> 16),
        number::low_word(block >> 32),
        number::low_word(block >> 48),
    ])
}

// The polynomial divides x^64 + x^48 + x^20 + 1: the first block's quotient by that is put down in the second.
pub fn register(h: Held) -> u16
    ensures { result ≡ register_of h }
{
    let g = h.first ^ (h.first >> 16) ^ (h.first >> 44);
    let q = g ^ (g >> 32);
    crc_division::sixty_four(0, turned(q ^ (q << 20) ^ (q << 48) ^ h.second))
}
