// Numbers in bits, the most significant first: put into bytes, and read from them.
ghost use Rattle.std.specs.Prelude.{◌≡◌, ◌++◌, ◌+◌, ◌*◌, ◌%◌, ◌^◌, ◌≤◌, length, get_or};
ghost use Rattle.code.specs.Symbols.{Below};
ghost use Rattle.code.specs.Layers.{bits};
ghost use Rattle.code.specs.Limits.{most_segments};
ghost use Rattle.code.specs.Label.{in_bits, field};
ghost use Rattle.label.specs.PutBits.{put_call};

use code::Refusal;

// The length at a place; 0 past the end.
pub fn length_at(lengths: &[u16], i: usize) -> u32
    ensures { result ≡ get_or lengths.now i 0 }
{
    lengths.get(i).map_or(0, |&k| u32::from(k))
}

// The lowest `count` bits of `first`, and then lengths in `width` bits each, as bytes at the front of `out`: zero bits fill the last.
pub fn put_bits(
    first: u32,
    count: usize,
    width: usize,
    lengths: &[u16],
    out: &mut [u8],
) -> Result<usize, Refusal>
    requires widths { (count ≤ 32) × (7 ≤ width) × (width ≤ 16) }
    requires lengths { Below (2 ^ width) lengths.now × (length lengths.now ≤ most_segments) }
    ensures { (result, out.new) ≡ put_call (bits count first ++ in_bits width lengths.now) out.old }
{
    // Counted by hand, both at once: some turns take a length, the others put a byte.
    let n = (count + width * lengths.len() + 7) / 8;
    if out.len() < n {
        return Err(Refusal::ShortBuffer);
    }
    let mut held = first;
    let mut left = count;
    let mut i = 0;
    let mut j = 0;
    while j < n {
        if left < 8 {
            held = ((held % 256) << width) + length_at(lengths, i);
            left += width;
            i += 1;
            continue;
        }
        left -= 8;
        out[j] = ((held >> left) % 256) as u8;
        j += 1;
    }
    Ok(n)
}

// The byte at a place; 0 past the end.
fn byte_at(bytes: &[u8], i: usize) -> u32
    ensures { result ≡ get_or bytes.now i 0 }
{
    bytes.get(i).map_or(0, |&x| u32::from(x))
}

// The number in `width` bits of bytes, behind the first `at` bits.
pub fn number_at(bytes: &[u8], at: usize, width: usize) -> u32
    requires { (at % 8 + width ≤ 16) × (at + width ≤ 8 * length bytes.now) }
    ensures { result ≡ field at width bytes.now }
{
    let i = at / 8;
    let two = (byte_at(bytes, i) << 8) + byte_at(bytes, i + 1);
    (two >> (16 - at % 8 - width)) % (1 << width)
}
