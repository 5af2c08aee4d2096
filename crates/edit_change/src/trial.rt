//! `trial_source`: the next tree numbers, for a call that may still be refused when it draws them.

ghost use Rattle.std.specs.Prelude.{◌≡◌};

use cst_core::TreeIds;

/// A source of the numbers that `ids` would give next, for a call that draws numbers while something may still be refused.
///
/// The call draws from `ids` last, or puts this source in its place, when nothing can fail any more. So a refusal draws no number, and no
/// number of this source is that of another tree which stays.
pub fn trial_source(ids: &TreeIds) -> TreeIds
    ensures { result ≡ ids.now }
{
    match ids.peek() {
        Some(number) => TreeIds::new(number),
        None => TreeIds::new(u64::MAX),
    }
}
