// The limits, one for each use.
ghost use Rattle.std.specs.Prelude.{◌≡◌};
ghost use Rattle.base.specs.Limit.{too_long};

use crate::Words;

// words of a recording
pub const RECORDING: Words = Words(32768);
// words of a separate health recording
pub const HEALTH_RECORDING: Words = Words(32768);
// words of the recording on a reel
pub const REEL_RECORDING: Words = Words(32768);
// words of the recording that the listing program takes
pub const LISTING_RECORDING: Words = Words(32768);

// Whether a recording has more words than its limit.
pub fn too_long(recording: &[u16]) -> bool
    ensures { result ≡ too_long recording.now }
{
    RECORDING.0 < recording.len()
}
