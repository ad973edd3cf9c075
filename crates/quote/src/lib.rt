// The quoting call: what strands of one order take, without making them.

#![tactic(auto)]

ghost use Rattle.std.specs.Prelude.{◌≡◌, ◌≤◌, length};
ghost use Rattle.code.specs.Limits.{most_length, most_segments};
ghost use Rattle.code.specs.Layout.{Lengths};
ghost use Rattle.code.specs.Order.{order};
ghost use Rattle.code.specs.Starts.{most_starts, not_above};
ghost use Rattle.code.specs.Quote.{quote_call};

use code::{Quote, Refusal};
use refusal::order::Order;

// The starts of the first window that are not above P: one, where the first of several segments has the length 2 and so 8 letters.
fn not_above(lengths: &[u16]) -> usize
    ensures { result ≡ not_above lengths.now }
{
    if let [2, _, ..] = lengths { 1 } else { 0 }
}

// The most starts that the scans of one reading try: one window for each of the m later segments, 16i + 1 starts in the i-th, but for those that
// are not above P.
fn most_starts(order: &Order) -> usize
    ensures { result ≡ most_starts order.now.lengths }
{
    let m = order.segments() - 1;
    8 * (m + 1) * m + m - not_above(order.lengths())
}

// Quotes `strands` strands of the layout `lengths` with B = `b`: their letters and the bytes of their sheets, both for all of them together,
// and the most starts that the scans of one reading try, past the strand's end too, each anew for every segment sought there.
// Turned down, in this order: 1 a length is not 2 to 256; 2 B is not 1 to 512; 3 there are no lengths or more than 64, or they do not sum to 4B.
pub fn quote(lengths: &[u16], b: u32, strands: u16) -> Result<Quote, Refusal>
    ensures { let o = order lengths.now b in result ≡ quote_call o strands }
{
    let order = Order::new(lengths, b)?;
    let n = u32::from(strands);
    Ok(Quote {
        letters: n * writer::extent_of(order.lengths()) as u32,
        bytes: n * sheet::sheet_bytes(order.segments()) as u32,
        starts: most_starts(&order) as u32,
    })
}
