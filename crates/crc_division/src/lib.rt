// Division by the polynomial of the CRC, many bits at a time and with no table. q is the quotient: the bits that fall off the
// top on the way. The register is what the quotient times the polynomial leaves below.
#![tactic(auto)]

ghost use Rattle.std.specs.Prelude.{◌≡◌};
ghost use Rattle.crc_division.specs.Crc.{crc_bits};
ghost use Rattle.crc_division.specs.Blocks.{after_block};

use base::number;

// Eight bits.
pub fn eight(r: u16) -> u16
    ensures { result ≡ crc_bits 8 r }
{
    let t = r >> 8;
    let q = t ^ (t >> 4);
    q ^ (q << 5) ^ (q << 12) ^ (r << 8)
}

// Sixteen bits.
pub fn sixteen(r: u16) -> u16
    ensures { result ≡ crc_bits 16 r }
{
    let a = r ^ (r >> 4);
    let q = a ^ (a >> 8) ^ (r >> 11);
    q ^ (q << 5) ^ (q << 12)
}

// The four words of a block, which has its first word lowest: y has it highest, as they go by.
pub fn sixty_four(r: u16, block: u64) -> u16
    ensures { result ≡ after_block r block }
{
    let x = block ^ u64::from(r);
    let y = (x << 48) ^ (x >> 16 << 48 >> 16) ^ (x << 16 >> 48 << 16) ^ (x >> 48);
    let e = y ^ (y >> 4) ^ (y >> 11) ^ (y >> 16);
    let f = e ^ (e >> 8) ^ (e >> 22) ^ (e >> 32);
    let g = f ^ (f >> 16) ^ (f >> 44);
    let q = g ^ (g >> 32);
    number::low_word(q ^ (q << 5) ^ (q << 12))
}
