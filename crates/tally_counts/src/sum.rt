// Two rows of thirty numbers, summed place by place.
ghost use Rattle.std.specs.Prelude.{◌≡◌, true, false, MatchOption};
ghost use Rattle.tally_recording.specs.Numbers.{sums, any_past};

use crate::NUMBERS;

// The sums, where each is a number. By place, as in `base_room::put`.
pub fn sums(old: [u32; NUMBERS], new: [u32; NUMBERS]) -> Option<[u32; NUMBERS]>
    ensures { MatchOption result (any_past (sums old new) ≡ true) (λ all. (all ≡ sums old new) × (any_past (sums old new) ≡ false)) }
{
    let mut all = old;
    for (place, more) in new.iter().enumerate() {
        all[place] = all[place].checked_add(*more)?;
    }
    Some(all)
}
