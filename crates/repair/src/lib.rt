// The repair of one layer, and the symbols of two mended layers.

#![tactic(auto)]

ghost use Rattle.std.specs.Prelude.{◌≡◌, ◌+◌, ◌-◌, ◌*◌, ◌<◌, ◌≤◌, min, max, false, length, get_or};
ghost use Rattle.code.specs.Bounds.{longest, Length};
ghost use Rattle.code.specs.Layers.{digit, pair};
ghost use Rattle.code.specs.Links.{sent};
ghost use Rattle.code.specs.Repair.{repair, mended, mended_word};
ghost use Rattle.code.specs.declared.Link.TheVariants.{Changed, More, Less};
ghost use Rattle.layers.specs.LayerSums.{layer_of};
ghost use Rattle.repair.specs.LayerRepair.{ahead, lowest, mended_layer, past_all, word_of};

pub mod summed;

use crate::summed::SummedLayer;
pub use code::Fix;
use code::Link;
use layers::Layer;

// The least number that leads from a to b modulo m.
fn ahead_of(a: usize, b: usize, m: usize) -> usize
    requires { (0 < m) × (m ≤ 2 * longest) }
    ensures { result ≡ ahead a b m }
{
    (b % m + (m - a % m)) % m
}

// The repair of a layer with at most one changed bit: the step to the written syndrome names the only place.
fn repair_changed(summed: &SummedLayer, written: usize) -> Option<Fix>
    requires { (0 < length summed.now.symbols.now) × (length summed.now.symbols.now ≤ longest) }
    ensures { mended Changed (word_of summed.now) result ≡ repair Changed written (word_of summed.now) }
{
    let k = summed.symbols.len();
    if 2 * k <= written {
        return None;
    }
    let d = ahead_of(summed.sum, written, 2 * k);
    if d == 0 {
        return Some(Fix { at: k, bit: false });
    }
    if d < k {
        let i = d - 1;
        if summed.layer.digit(summed.symbols[i]) == 0 {
            return Some(Fix { at: i, bit: true });
        }
        return None;
    }
    let i = 2 * k - d - 1;
    if summed.layer.digit(summed.symbols[i]) == 1 {
        return Some(Fix { at: i, bit: false });
    }
    if d == k {
        return Some(Fix { at: i, bit: true });
    }
    None
}

// The repair of a layer with one bit more: the bit left out takes the ones behind it from the sum, and its own place if it is a one.
fn repair_more(summed: &SummedLayer, written: usize) -> Option<Fix>
    requires { (2 < length summed.now.symbols.now) × (length summed.now.symbols.now ≤ longest + 1) }
    ensures { mended More (word_of summed.now) result ≡ repair More written (word_of summed.now) }
{
    let n = summed.symbols.len();
    let m = 2 * (n - 1);
    if m <= written {
        return None;
    }
    let d = ahead_of(written, summed.sum, m);
    let mut ones: usize = 0;
    for i in (0..n).rev() {
        let b = summed.layer.digit(summed.symbols[i]);
        if ones + summed.layer.place_if_one(summed.symbols[i], i + 1) == d {
            return Some(Fix { at: i, bit: b == 1 });
        }
        ones += b;
    }
    None
}

// The repair of a layer with one bit less: the bit put in adds the ones behind it to the sum, and its own place if it is a one.
fn repair_less(summed: &SummedLayer, written: usize) -> Option<Fix>
    requires { length summed.now.symbols.now < longest }
    ensures { mended Less (word_of summed.now) result ≡ repair Less written (word_of summed.now) }
{
    let n = summed.symbols.len();
    let m = 2 * (n + 1);
    if m <= written {
        return None;
    }
    let d = ahead_of(summed.sum, written, m);
    let mut ones: usize = 0;
    for i in (0..n + 1).rev() {
        if ones == d {
            return Some(Fix { at: i, bit: false });
        }
        if ones + i + 1 == d {
            return Some(Fix { at: i, bit: true });
        }
        if 0 < i {
            ones += summed.layer.digit(summed.symbols[i - 1]);
        }
    }
    None
}

// The repair of one layer of received symbols, given the written syndrome; a function for each link, since they share no step.
pub fn repair_layer(link: Link, summed: &SummedLayer, written: usize) -> Option<Fix>
    requires { Length (sent link (length summed.now.symbols.now)) }
    ensures { mended link (word_of summed.now) result ≡ repair link written (word_of summed.now) }
{
    match link {
        Link::Changed => repair_changed(summed, written),
        Link::More => repair_more(summed, written),
        Link::Less => repair_less(summed, written),
    }
}

// The bit at place i of a layer with the fix's bit set at its place.
fn changed_digit(symbols: &[u8], layer: Layer, fix: Fix, i: usize) -> usize
    requires { i < length symbols.now }
    ensures { (result ≡ digit (get_or (mended_word Changed (layer_of layer symbols.now) fix.at fix.bit) i false)) × (result < 2) }
{
    if i == fix.at {
        return usize::from(fix.bit);
    }
    layer.digit(symbols[i])
}

// The bit at place i of a layer with the bit at the fix's place left out.
fn more_digit(symbols: &[u8], layer: Layer, fix: Fix, i: usize) -> usize
    requires { i + 1 < length symbols.now }
    ensures { (result ≡ digit (get_or (mended_word More (layer_of layer symbols.now) fix.at fix.bit) i false)) × (result < 2) }
{
    if i < fix.at {
        return layer.digit(symbols[i]);
    }
    layer.digit(symbols[i + 1])
}

// The bit at place i of a layer with the fix's bit put in before its place.
fn less_digit(symbols: &[u8], layer: Layer, fix: Fix, i: usize) -> usize
    requires { i ≤ length symbols.now }
    ensures { (result ≡ digit (get_or (mended_word Less (layer_of layer symbols.now) fix.at fix.bit) i false)) × (result < 2) }
{
    if i < fix.at {
        if i < symbols.len() {
            return layer.digit(symbols[i]);
        }
        return usize::from(fix.bit);
    }
    if i == fix.at {
        return usize::from(fix.bit);
    }
    layer.digit(symbols[i - 1])
}

// The bit at place i of a mended layer.
fn mended_digit(link: Link, symbols: &[u8], layer: Layer, fix: Fix, i: usize) -> usize
    requires { i < sent link (length symbols.now) }
    ensures { (result ≡ digit (get_or (mended_word link (layer_of layer symbols.now) fix.at fix.bit) i false)) × (result < 2) }
{
    match link {
        Link::Changed => changed_digit(symbols, layer, fix, i),
        Link::More => more_digit(symbols, layer, fix, i),
        Link::Less => less_digit(symbols, layer, fix, i),
    }
}

// The first symbols, by their lowest two bits, in all of `out`.
fn put_symbols(symbols: &[u8], out: &mut [u8])
    requires { length out.old ≤ length symbols.now }
    ensures { out.new ≡ lowest symbols.now 0 (length out.old) }
{
    for i in 0..out.len() {
        out[i] = symbols[i] & 3;
    }
}

// The place behind a mended one; 0 where the layer does not change.
fn past(link: Link, symbols: &[u8], at: usize) -> usize
    ensures { (at < length symbols.now → result ≡ at + 1) × (length symbols.now ≤ at → result ≡ past_all link (length symbols.now)) }
{
    let n = symbols.len();
    if at < n {
        return at + 1;
    }
    match link {
        Link::Changed => 0,
        Link::More => n,
        Link::Less => n + 1,
    }
}

// The symbols whose layers are the two mended ones, in `out`: received ones before the first mended place and behind the last.
pub fn mended_pair(link: Link, symbols: &[u8], high: Fix, low: Fix, out: &mut [u8])
    requires room { length out.old ≡ sent link (length symbols.now) }
    requires high_fits { length (mended_layer link 1 symbols.now high) ≡ length out.old }
    requires low_fits { length (mended_layer link 0 symbols.now low) ≡ length out.old }
    ensures { out.new ≡ pair (mended_layer link 1 symbols.now high) (mended_layer link 0 symbols.now low) }
{
    let n = symbols.len();
    let k = out.len();
    let first = high.at.min(low.at).min(n);
    let last = past(link, symbols, high.at)
        .max(past(link, symbols, low.at))
        .min(k)
        .max(first);
    put_symbols(symbols, &mut out[..first]);
    for i in first..last {
        let x = mended_digit(link, symbols, Layer::High, high, i);
        let y = mended_digit(link, symbols, Layer::Low, low, i);
        out[i] = (2 * x + y) as u8;
    }
    put_symbols(&symbols[n - (k - last)..], &mut out[last..]);
}
