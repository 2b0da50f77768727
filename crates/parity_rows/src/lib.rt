// The parity of data, taken as 64 rows of 64 bits: in one pass by rows of four words, zeros past the end.
#![tactic(auto)]

ghost use Rattle.std.specs.Prelude.{◌≡◌, ◌+◌, ◌/◌, ◌<◌, ◌≤◌, length, min};
ghost use Rattle.base.specs.Size.{data_width};
ghost use Rattle.parity_rows.specs.Parity.{number, bit_from, parity_words, parities, stated_parity};
ghost use Rattle.parity_rows.specs.ByRows.{pack, words_of, loaded, exchanged, one_more, sums_of};

use base::size::PARITY;
use base::{Words, number};

// A digit for each row and one for each column, the first highest.
#[derive(Clone, Copy)]
pub struct Sums {
    pub rows: u64,
    pub columns: u64,
}

// Four words as one number, the first highest. Its callers turn their words round or read them one by one, so it takes no array.
fn pack_row(a: u16, b: u16, c: u16, d: u16) -> u64
    ensures { result ≡ pack a b c d }
{
    u64::from(a) << 48 | u64::from(b) << 32 | u64::from(c) << 16 | u64::from(d)
}

// Four words as one number, the first lowest, as one load of 64 bits gives them.
fn load(words: &[u16; 4]) -> u64
    ensures { result ≡ loaded words.now 0 }
{
    pack_row(words[3], words[2], words[1], words[0])
}

// The four words of a number, the first highest.
fn words_of(x: u64) -> [u16; 4]
    ensures { result ≡ words_of x }
{
    [
        number::low_word(x >> 48),
        number::low_word(x >> 32),
        number::low_word(x >> 16),
        number::low_word(x),
    ]
}

// Four words the other way round.
fn exchange(x: u64) -> u64
    ensures { result ≡ exchanged x }
{
    let [a, b, c, d] = words_of(x);
    pack_row(d, c, b, a)
}

// The 64 bits from a word on as one number, the first bit highest; zeros past the end.
fn bits_from(words: &[u16], at: Words) -> u64
    requires { at.0 ≤ data_width }
    ensures { result ≡ number 64 (bit_from words.now at.0) }
{
    let first = at.0;
    pack_row(
        base_room::at(words, first),
        base_room::at(words, first + 1),
        base_room::at(words, first + 2),
        base_room::at(words, first + 3),
    )
}

// The sums with row r: its parity at its place, and its bits exclusive-ored into the columns.
fn add(s: Sums, w: u64, r: usize) -> Sums
    requires { r < 64 }
    ensures { result ≡ one_more s w r }
{
    let odd = u64::from(w.count_ones() & 1);
    Sums {
        rows: s.rows ^ (odd << (63 - r)),
        columns: s.columns ^ w,
    }
}

// The sums of the whole rows, of which 64 count. Words stay as they are loaded up to the end, so that the loop has no more than a load and a count of ones
// for each row.
fn whole_rows(data: &[u16]) -> Sums
    ensures { result ≡ sums_of «data».now (min (length «data».now / 4) 64) }
{
    let (whole, _) = data.as_chunks::<4>();
    let rows = &whole[..whole.len().min(64)];
    let mut s = Sums {
        rows: 0,
        columns: 0,
    };
    for (r, row) in rows.iter().enumerate() {
        s = add(s, load(row), r);
    }
    Sums {
        rows: s.rows,
        columns: exchange(s.columns),
    }
}

// The parity of every row and every column of the data: rows past its end add nothing. As a call of its own it would slow the unit judge by a tenth.
#[inline(always)]
pub fn parity(data: &[u16]) -> Sums
    ensures { result ≡ parities «data».now }
{
    let whole = (data.len() / 4).min(64);
    let s = whole_rows(data);
    if whole == 64 {
        return s;
    }
    add(s, bits_from(data, Words(4 * whole)), whole)
}

// The parity that a unit's parity words state. Inlined in the unit judge, whose units have these words, it makes no test for the end.
#[inline(always)]
pub fn stated(unit: &[u16]) -> Sums
    ensures { result ≡ stated_parity unit.now }
{
    Sums {
        rows: bits_from(unit, Words(0)),
        columns: bits_from(unit, Words(4)),
    }
}

// The parity words of the data.
pub fn parity_words(data: &[u16]) -> [u16; PARITY.0]
    ensures { result ≡ parity_words «data».now }
{
    let sums = parity(data);
    let [a, b, c, d] = words_of(sums.rows);
    let [e, f, g, h] = words_of(sums.columns);
    [a, b, c, d, e, f, g, h]
}
