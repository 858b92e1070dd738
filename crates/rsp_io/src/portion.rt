// Handing out the front of some bytes.
ghost use Rattle.std.specs.Prelude.{◌≡◌, min, length, take};

/// Copies the front of `rest` to the front of `buf`, as many bytes as both have and at most `most`. Answers how many.
pub(crate) fn hand_out(rest: &[u8], buf: &mut [u8], most: usize) -> usize
    ensures count { result ≡ min most (min (length buf.old) (length rest.now)) }
    ensures bytes { take result buf.new ≡ take result rest.now }
{
    let count = most.min(buf.len().min(rest.len()));
    buf[..count].copy_from_slice(&rest[..count]);
    count
}
