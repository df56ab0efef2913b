// Which buckets above the first have a node: bit `bucket - 1` of a word.
ghost use Rattle.std.specs.Prelude.{◌≡◌, ◌≢◌, ℕ, ◌+◌, ◌-◌, ◌<◌, ◌≤◌};
ghost use Rattle.std.specs.Int.{bit_at};

/// The marks with that of a bucket set.
pub(crate) fn marked(filled: u64, bucket: u32) -> u64
    requires { bucket ≤ 64 }
    ensures set { 0 < bucket → bit_at result (bucket - 1) ≡ 1 }
    ensures others { (place : ℕ) → place < 64 → place + 1 ≢ bucket
        → bit_at result place ≡ bit_at filled place }
{
    if bucket == 0 {
        return filled;
    }
    filled | 1 << (bucket - 1)
}

/// The marks without that of a bucket.
pub(crate) fn unmarked(filled: u64, bucket: u32) -> u64
    requires { bucket ≤ 64 }
    ensures cleared { 0 < bucket → bit_at result (bucket - 1) ≡ 0 }
    ensures others { (place : ℕ) → place < 64 → place + 1 ≢ bucket
        → bit_at result place ≡ bit_at filled place }
{
    if bucket == 0 {
        return filled;
    }
    filled & !(1 << (bucket - 1))
}

/// The lowest bucket that is marked.
pub(crate) fn lowest_marked(filled: u64) -> u32
    requires { 0 < filled }
    ensures range { (0 < result) × (result ≤ 64) }
    ensures set { bit_at filled (result - 1) ≡ 1 }
    ensures below { (place : ℕ) → place + 1 < result → bit_at filled place ≡ 0 }
{
    filled.trailing_zeros() + 1
}
