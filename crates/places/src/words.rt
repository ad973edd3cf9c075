// Four and eight symbols as one number.
ghost use Rattle.std.specs.Prelude.{◌≡◌, ◌+◌, ◌≤◌, length, take, drop};
ghost use Rattle.places.specs.Words.{word_of};

// Four symbols from place i on as one number, the first in its lowest byte.
pub fn four_at(s: &[u8], i: usize) -> u32
    requires { i + 4 ≤ length s.now }
    ensures { result ≡ word_of (take 4 (drop i s.now)) }
{
    u32::from_le_bytes([s[i], s[i + 1], s[i + 2], s[i + 3]])
}

// Eight symbols from place i on as one number, the first in its lowest byte.
pub fn eight_at(s: &[u8], i: usize) -> u64
    requires { i + 8 ≤ length s.now }
    ensures { result ≡ word_of (take 8 (drop i s.now)) }
{
    u64::from(four_at(s, i)) + (u64::from(four_at(s, i + 4)) << 32)
}
