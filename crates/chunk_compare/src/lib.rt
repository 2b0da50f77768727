// Two recordings compared: their listed chunks are paired in order, and of each pair the first word that differs is told.
#![tactic(auto)]

ghost use Rattle.std.specs.Prelude.{◌≡◌, ◌<◌, ◌==◌, length};
ghost use Rattle.std.specs.List.{zip, prefix_len};
ghost use Rattle.chunk_compare.specs.Pairs.{first_difference, pair_number, pair_said};
ghost use Rattle.chunk_compare.specs.Compare.{refused, compare_reply, compare_room};

use base::{Words, limit, refusal};
use chunk::search;
use chunk_reading::counting;

// What a comparison answers: the pairs, and the chunks of each recording that are left over. A refusal has its number and zeros: `Demand1` says so of this
// answer, so it is no Result.
#[derive(Clone, Copy)]
pub struct Compared {
    pub refusal: u8,
    pub pairs: usize,
    pub first_left: usize,
    pub second_left: usize,
}

// How many words two rows agree in, from their first words on.
fn agreed(first: &[u16], second: &[u16]) -> usize
    ensures { result ≡ prefix_len (λ p. p.0 == p.1) (zip first.now second.now) }
{
    first
        .iter()
        .zip(second)
        .take_while(|(one, other)| **one == **other)
        .count()
}

// The first word at which two rows of words differ, counted from 0; none where they are the same. Where one is a prefix of the other, the shorter length.
#[tactic(auto, using(crate::proofs::Difference::agreed_told))]
pub fn chunks(first: &[u16], second: &[u16]) -> Option<Words>
    ensures { result ≡ first_difference first.now second.now }
{
    let alike = agreed(first, second);
    if alike == first.len() && alike == second.len() {
        return None;
    }
    Some(Words(alike))
}

// What is told of a pair as an entry of the list: 0 for the same, else the word. It asks that the word fits, so it is no `From`, and `as` is enough.
fn entry_of(pair: Option<Words>) -> u16
    requires { pair_number pair < 65536 }
    ensures { result ≡ pair_number pair }
{
    pair.map_or(0, |word| word.0 as u16)
}

// What an entry of the list says.
pub fn said(entry: u16) -> Option<Words>
    ensures { result ≡ pair_said entry }
{
    if entry == 0 {
        return None;
    }
    Some(Words(usize::from(entry)))
}

fn refused(number: u8) -> Compared
    ensures { result ≡ refused number }
{
    Compared {
        refusal: number,
        pairs: 0,
        first_left: 0,
        second_left: 0,
    }
}

// The reply, for a list of so many entries.
#[tactic(auto, using(crate::proofs::Replies::too_long_refused, crate::proofs::Replies::too_few_refused, crate::proofs::Replies::enough_compared))]
fn look(first: &[u16], second: &[u16], sync: u16, entries: usize) -> Compared
    ensures { result ≡ compare_reply sync first.now second.now entries }
{
    if limit::too_long(first) || limit::too_long(second) {
        return refused(refusal::LENGTH);
    }
    let of_first = counting::count(first, sync).chunks;
    let of_second = counting::count(second, sync).chunks;
    let pairs = of_first.min(of_second);
    if entries < pairs {
        return refused(refusal::ROOM);
    }
    Compared {
        refusal: 0,
        pairs,
        first_left: of_first - pairs,
        second_left: of_second - pairs,
    }
}

// Compares two recordings, the k-th listed chunk of one with the k-th of the other, until one has no more. The k-th entry of the list tells of the k-th pair;
// the entries past the last keep their contents. By place, as in `base_room::put`.
pub fn recordings(first: &[u16], second: &[u16], sync: u16, list: &mut [u16]) -> Compared
    ensures value { result ≡ compare_reply sync first.now second.now (length list.old) }
    ensures list_after { list.new ≡ compare_room sync first.now second.now list.old }
{
    let reply = look(first, second, sync, list.len());
    if reply.refusal != 0 {
        return reply;
    }
    let pairs = search::chunks(first, sync).zip(search::chunks(second, sync));
    for (k, ((one, past_one), (other, past_other))) in pairs.enumerate() {
        let of_first = &first[one.position.0..past_one.0];
        let of_second = &second[other.position.0..past_other.0];
        let pair = chunks(of_first, of_second);
        list[k] = entry_of(pair);
    }
    reply
}
