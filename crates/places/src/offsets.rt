// The small signed numbers by which a place is moved.
ghost use Rattle.std.specs.Prelude.{◌≡◌, ◌+◌, ◌/◌, ◌<◌, ◌≤◌};
ghost use Rattle.code.specs.Bounds.{reach};
ghost use Rattle.places.specs.Offsets.{offset_of, tried_at};

// The i-th of the signed numbers 0, −1, +1, −2, +2 and so on.
pub fn offset(i: usize) -> isize
    ensures { result ≡ offset_of i }
{
    let half = (i / 2) as isize;
    if i % 2 == 1 {
        return -1 - half;
    }
    half
}

// The place n moved by the i-th of these numbers.
pub fn moved_by(n: usize, i: usize) -> usize
    requires { (i < reach) × ((i + 1) / 2 ≤ n) × (n < reach) }
    ensures { result ≡ tried_at n i }
{
    (n as isize + offset(i)) as usize
}
