ghost use Rattle.std.specs.Prelude.{◌≡◌, ◌≤◌, ◌+◌, ◌<◌, ◌-◌, ◌++◌, ℕ, length, min, take, drop};

// Copies the bytes from a place on, as many as there are and fit.
pub(crate) fn copy_from(bytes: &[u8], place: usize, into: &mut [u8]) -> usize
    requires { place ≤ length bytes.now }
    ensures amount { result ≡ min (length into.old) (length bytes.now - place) }
    ensures fits { result ≤ length into.old }
    ensures within { place + result ≤ length bytes.now }
    ensures some { place < length bytes.now → 0 < length into.old → 0 < result }
    ensures bytes { take result into.new ≡ take result (drop place bytes.now) }
{
    let count = into.len().min(bytes.len() - place);
    into[..count].copy_from_slice(&bytes[place..place + count]);
    count
}
