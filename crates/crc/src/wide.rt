// A run of words, held as sixteen words that have its register: the polynomial divides x^256 + x^192 + x^80 + 1, so four words are
// put down again 4, 11 and 16 words later, at whole words. So a block can have its first word lowest, as one load of 64 bits gives it.
ghost use Rattle.std.specs.Prelude.{◌≡◌};
ghost use Rattle.crc_division.specs.Blocks.{lanes, after_block};
ghost use Rattle.crc.specs.Held.{register_of, register_of_wide};

use crate::held;
use crate::held::Held;

// Sixteen words, four to a block.
#[derive(Clone, Copy)]
pub struct Wide {
    pub first: u64,
    pub second: u64,
    pub third: u64,
    pub fourth: u64,
}

// The block of four words.
pub fn pack(words: &[u16; 4]) -> u64
    ensures { lanes result ≡ words.now }
{
    held::turned(held::pack(words))
}

// Eight words with eight zeros before them.
pub fn widen(h: Held) -> Wide
    ensures { register_of_wide result ≡ register_of h }
{
    Wide {
        first: 0,
        second: 0,
        third: held::turned(h.first),
        fourth: held::turned(h.second),
    }
}

// A block more: the first four words are put down again, and it takes the last place.
pub fn join(w: Wide, block: u64) -> Wide
    ensures { register_of_wide result ≡ after_block (register_of_wide w) block }
{
    Wide {
        first: w.first ^ w.second,
        second: (w.first << 48) ^ w.third,
        third: (w.first >> 16) ^ w.fourth,
        fourth: w.first ^ block,
    }
}

// The first eight words, and then the others a block at a time.
pub fn narrow(w: Wide) -> Held
    ensures { register_of result ≡ register_of_wide w }
{
    let front = Held {
        first: held::turned(w.first),
        second: held::turned(w.second),
    };
    held::join(
        held::join(front, held::turned(w.third)),
        held::turned(w.fourth),
    )
}
