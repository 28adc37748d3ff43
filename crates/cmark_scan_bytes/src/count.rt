//! The number of bytes that pass a test.

ghost use Rattle.std.specs.Prelude.{◌-◌, ◌<◌, ◌≤◌, ℕ, true, false, length, slice_index};

/// The number of bytes at the beginning that pass the test, up to the first that does not.
pub fn scan_while<F: Fn(u8) -> bool>(bytes: &[u8], f: F) -> usize
    requires { F.IsAlwaysCallable f }
    ensures within { result ≤ length bytes.now }
    ensures passed { (k : ℕ) → k < result → F.post f (slice_index bytes.now k) true }
    ensures stopped { result < length bytes.now → F.post f (slice_index bytes.now result) false }
{
    for (i, byte) in bytes.iter().enumerate() {
        if !f(*byte) {
            return i;
        }
    }
    bytes.len()
}

/// The number of bytes at the end that pass the test, down to the last that does not.
pub fn scan_rev_while<F: Fn(u8) -> bool>(bytes: &[u8], f: F) -> usize
    requires { F.IsAlwaysCallable f }
    ensures within { result ≤ length bytes.now }
    ensures passed { (k : ℕ) → length bytes.now - result ≤ k → k < length bytes.now
        → F.post f (slice_index bytes.now k) true }
    ensures stopped { result < length bytes.now
        → F.post f (slice_index bytes.now (length bytes.now - result - 1)) false }
{
    let mut at = bytes.len();
    while at > 0 {
        if !f(bytes[at - 1]) {
            return bytes.len() - at;
        }
        at -= 1;
    }
    bytes.len()
}
