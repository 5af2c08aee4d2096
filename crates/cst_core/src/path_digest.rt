//! The digest of a path, which is hashed in its place.

ghost use Rattle.std.specs.Prelude.{◌≡◌};
ghost use Rattle.cst_core.specs.PathDigest.{digest_below, path_digest};

// Odd, so that no two slots below one digest give the same one: 2^64 divided by the golden ratio.
const MULTIPLIER: u64 = 0x9e37_79b9_7f4a_7c15;

// The digest of a path with one more slot.
fn digest_below(digest: u64, slot: usize) -> u64
    ensures { result ≡ digest_below digest slot }
{
    digest.wrapping_add(slot as u64).wrapping_mul(MULTIPLIER)
}

/// A path as one number, which is faster to hash than slot by slot.
pub(crate) fn path_digest(path: &[usize]) -> u64
    ensures { result ≡ path_digest path.now }
{
    let mut digest = 1;
    for slot in path {
        digest = digest_below(digest, *slot);
    }
    digest
}
