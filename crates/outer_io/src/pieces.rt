//! How many bytes a call of an object in memory moves.

ghost use Rattle.std.specs.Prelude.{◌≡◌, ◌≤◌, ◌<◌, [], length, take};

/// Copies as many of the bytes as the buffer has room for, at most `most`, and says how many.
pub fn copy(bytes: &[u8], buf: &mut [u8], most: usize) -> usize
    requires { 0 < most }
    ensures within { result ≤ length bytes.now }
    ensures fits { result ≤ length buf.new }
    ensures few { result ≤ most }
    ensures copied { take result buf.new ≡ take result bytes.now }
    ensures end { result ≡ 0 → 0 < length buf.new → bytes.now ≡ [] }
{
    let count = bytes.len().min(buf.len()).min(most);
    buf[..count].copy_from_slice(&bytes[..count]);
    count
}

/// How many of `len` bytes one write takes where there is room for `room`, at most `most`.
pub fn part(len: usize, room: u64, most: usize) -> usize
    ensures some { 0 < len → 0 < room → 0 < most → 0 < result }
    ensures within { result ≤ len }
    ensures fits { result ≤ room }
    ensures few { result ≤ most }
{
    len.min(room as usize).min(most)
}
