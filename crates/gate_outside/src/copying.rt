ghost use Rattle.std.specs.Prelude.{◌≡◌, min, length, take};

/// Copies as many bytes as `most` and both slices allow to the front of `into`, and answers how many.
pub fn copy_front(from: &[u8], most: usize, into: &mut [u8]) -> usize
    ensures count { result ≡ min most (min (length into.old) (length from.now)) }
    ensures copied { take result into.new ≡ take result from.now }
{
    let n = most.min(into.len().min(from.len()));
    into[..n].copy_from_slice(&from[..n]);
    n
}
