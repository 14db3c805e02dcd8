ghost use Rattle.std.specs.Prelude.{◌≡◌, ◌≢◌, ◌<◌, ◌≤◌, ℕ, true, false, length, slice_index};

/// How many bytes pass the test before the first that fails it.
pub(crate) fn run_length<F: Fn(u8) -> bool>(bytes: &[u8], test: F) -> usize
    requires { F.IsAlwaysCallable test }
    ensures within { result ≤ length bytes.now }
    ensures passed { (k : ℕ) → k < result → (slice_index bytes.now k < 256) × F.post test (slice_index bytes.now k) true }
    ensures failed { result < length bytes.now → (slice_index bytes.now result < 256) × F.post test (slice_index bytes.now result) false }
{
    bytes.iter().take_while(|b| test(**b)).count()
}

/// How many bytes two texts begin with alike.
pub(crate) fn common_length(a: &[u8], b: &[u8]) -> usize
    ensures within { (result ≤ length a.now) × (result ≤ length b.now) }
    ensures alike { (k : ℕ) → k < result → slice_index a.now k ≡ slice_index b.now k }
    ensures apart { result < length a.now → result < length b.now → slice_index a.now result ≢ slice_index b.now result }
{
    a.iter().zip(b).take_while(|(x, y)| x == y).count()
}
