// Blocks of symbols, copied; and zeros.

#![tactic(auto)]

ghost use Rattle.std.specs.Prelude.{◌≡◌, ◌+◌, ◌≤◌, length, take, drop, replicate};
ghost use Rattle.code.specs.Buffers.{put_at};

// The eight symbols from place i of a block on at place j of `out`.
fn put_eight(block: &[u8], i: usize, out: &mut [u8], j: usize)
    requires { (i + 8 ≤ length block.now) × (j + 8 ≤ length out.old) }
    ensures { out.new ≡ put_at out.old j (take 8 (drop i block.now)) }
{
    let a = block[i];
    let b = block[i + 1];
    let c = block[i + 2];
    let d = block[i + 3];
    let e = block[i + 4];
    let f = block[i + 5];
    let g = block[i + 6];
    let h = block[i + 7];
    out[j] = a;
    out[j + 1] = b;
    out[j + 2] = c;
    out[j + 3] = d;
    out[j + 4] = e;
    out[j + 5] = f;
    out[j + 6] = g;
    out[j + 7] = h;
}

// A block of symbols at a place of `out`, eight at a time: copy_from_slice calls memmove, which the library for C asks of nobody.
pub fn put(block: &[u8], out: &mut [u8], at: usize)
    requires { at + length block.now ≤ length out.old }
    ensures { out.new ≡ put_at out.old at block.now }
{
    let n = block.len();
    let eights = n / 8;
    for i in 0..eights {
        put_eight(block, 8 * i, out, at + 8 * i);
    }
    for i in 8 * eights..n {
        out[at + i] = block[i];
    }
}

// The symbols from a place on, in `out`.
pub fn copy(s: &[u8], from: usize, out: &mut [u8])
    requires { from + length out.old ≤ length s.now }
    ensures { out.new ≡ take (length out.old) (drop from s.now) }
{
    let to = from + out.len();
    put(&s[from..to], out, 0);
}

// Zeros throughout.
pub fn put_zeros(out: &mut [u8])
    ensures { out.new ≡ replicate (length out.old) 0 }
{
    out.fill(0);
}
