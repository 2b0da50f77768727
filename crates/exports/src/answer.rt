// An answer: one number of four words.
ghost use Rattle.std.specs.Prelude.{◌≡◌, ◌≤◌};
ghost use Rattle.exports.specs.Answer as says;

use base::Written;

// The refusal and three parts, a word each: of a part its low word. No `From` widens a `usize`.
#[tactic(auto, unfolding(crate::specs::Answer::in_words))]
pub fn in_words(refusal: u8, a: usize, b: usize, c: usize) -> u64
    ensures { result ≡ says.in_words refusal a b c }
{
    ((u64::from(refusal) * 65536 + a as u64 % 65536) * 65536 + b as u64 % 65536) * 65536
        + c as u64 % 65536
}

// By `if`: `usize::from(set) * worth` is no plainer.
pub fn flag(set: bool, worth: usize) -> usize
    ensures { (result ≡ says.flag set worth) × (result ≤ worth) }
{
    if set { worth } else { 0 }
}

// A writer's reply: the words written.
#[tactic(auto, unfolding(crate::specs::Answer::written))]
pub fn written(w: Written) -> u64
    ensures { result ≡ says.written w }
{
    in_words(w.refusal, w.length.0, 0, 0)
}
