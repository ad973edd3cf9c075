// The layers of a list of symbols: the number of syndrome symbols, sums of places and syndromes.

#![tactic(auto)]

ghost use Rattle.std.specs.Prelude.{◌≡◌, cond, ◌+◌, ◌-◌, ◌*◌, ◌<◌, ◌≤◌, length, take, drop};
ghost use Rattle.code.specs.Bounds.{longest, widest};
ghost use Rattle.code.specs.Layers.{bit, digit, sum_of_places, syndrome, width, number};
ghost use Rattle.layers.specs.LayerSums.{shift_of, both, sums_of};
ghost use Rattle.layers.specs.SideBySide.{half, sides, running_of, bytes_of, bit_bytes, halves, column_ones, column_places, Block};

use places::words::four_at;

// One of the two layers: the low bits of the symbols, or the high ones.
#[derive(Clone, Copy, Debug, PartialEq, Eq)]
pub enum Layer {
    Low,
    High,
}

impl Layer {
    // The bit of a symbol that the layer holds, as a number.
    pub fn digit(self, symbol: u8) -> usize
        ensures { (result ≡ digit (bit (shift_of self) symbol)) × (result < 2) }
    {
        usize::from((symbol >> self as u8) & 1)
    }

    // What a place adds to the layer's sum of places: its number where the symbol there has a one, and else 0.
    pub fn place_if_one(self, symbol: u8, place: usize) -> usize
        ensures { result ≡ cond (bit (shift_of self) symbol) place 0 }
    {
        if self.digit(symbol) == 1 { place } else { 0 }
    }
}

// A number for each layer. What is done to both is written out for each: two lines beside one another are plainer than a closure.
#[derive(Clone, Copy, Debug, PartialEq, Eq)]
pub struct Layers {
    pub high: usize,
    pub low: usize,
}

// The check of some symbols, and the sum of places of each layer.
#[derive(Clone, Copy, Debug, PartialEq, Eq)]
pub struct Summed {
    pub check: u8,
    pub places: Layers,
}

// The numbers of ones and the sums of places of both layers, the low layer's in the lower half of each word and the high layer's in the upper.
#[derive(Clone, Copy, Debug, PartialEq, Eq)]
struct Running {
    ones: u64,
    places: u64,
}

// t, the number of syndrome symbols that k message symbols have.
pub fn width_of(k: usize) -> usize
    requires { (0 < k) × (k ≤ longest) }
    ensures { result ≡ width k }
{
    (64 - usize::leading_zeros(2 * k - 1)) as usize
}

// The bits of both layers of the bytes of a word, a byte each: the low layer's in the lower half, the high layer's in the upper half.
fn layer_bits(word: u64) -> u64
    requires { word < half }
    ensures { result ≡ sides bit_bytes (bytes_of 4 word) }
{
    (word | (word << 31)) & 0x0101010101010101
}

// The bits of both layers of the four symbols from place i on.
fn row_at(symbols: &[u8], i: usize) -> u64
    requires { i + 4 ≤ length symbols.now }
    ensures { result ≡ sides bit_bytes (take 4 (drop i symbols.now)) }
{
    layer_bits(u64::from(four_at(symbols, i)))
}

// What four columns add up to: `ones` has the ones of each, and `behind` those behind each of its rows, which count for the row's four symbols.
fn folded(ones: u64, behind: u64) -> Running
    ensures { result ≡ record { ones = halves column_ones ones; places = 4 * halves column_ones behind + halves column_places ones } }
{
    let odd = (ones >> 8) & 0x00FF00FF00FF00FF;
    let pairs = (ones & 0x00FF00FF00FF00FF) + odd;
    let rows = (behind & 0x00FF00FF00FF00FF) + ((behind >> 8) & 0x00FF00FF00FF00FF);
    let sums = 4 * rows + pairs + odd;
    Running {
        ones: (pairs + (pairs >> 16)) & 0x0000FFFF0000FFFF,
        places: (sums + ((sums + 2 * pairs) >> 16)) & 0x0000FFFF0000FFFF,
    }
}

// The running sums of the symbols from place `from` on, formed in rows of four, two rows at a time.
fn block_sums(symbols: &[u8], from: usize) -> Running
    requires { Block from (length symbols.now) }
    ensures { result ≡ running_of (drop from symbols.now) }
{
    let mut i = symbols.len();
    let mut ones: u64 = 0;
    let mut behind: u64 = 0;
    // By hand, as in `sums`: with `for` the sums stand apart from their caller, and a strand is written 2 in 100 slower or more.
    while from < i {
        i -= 8;
        behind += ones;
        ones += row_at(symbols, i + 4);
        behind += ones;
        ones += row_at(symbols, i);
    }
    folded(ones, behind)
}

// Where the block of n symbols starts: the last of them, eights and at most 64.
fn block_start(n: usize) -> usize
    ensures { Block result n }
{
    if 64 < n {
        return n - 64;
    }
    n % 8
}

// The check, and the sum of places of each layer, from the last symbol to the first: at each the number of ones so far is added to the sum.
pub fn sums(symbols: &[u8]) -> Summed
    requires { length symbols.now ≤ longest }
    ensures { result ≡ sums_of symbols.now }
{
    let mut i = block_start(symbols.len());
    let block = block_sums(symbols, i);
    let mut ones = block.ones;
    let mut places = block.places;
    while 0 < i {
        i -= 1;
        let bits = layer_bits(symbols[i] as u64);
        ones += bits;
        places += ones;
    }
    Summed {
        check: ((ones + (ones >> 31)) % 4) as u8,
        places: Layers {
            high: (places >> 32) as usize,
            low: (places % 4294967296) as usize,
        },
    }
}

// The sums of places of some symbols, from those of all but the last.
pub fn with_last(symbols: &[u8], places: Layers) -> Layers
    requires { (0 < length symbols.now) × (length symbols.now ≤ longest + 1) × (places ≡ both sum_of_places (take (length symbols.now - 1) symbols.now)) }
    ensures { result ≡ both sum_of_places symbols.now }
{
    let k = symbols.len();
    let x = symbols[k - 1];
    Layers {
        high: places.high + Layer::High.place_if_one(x, k),
        low: places.low + Layer::Low.place_if_one(x, k),
    }
}

// The sums of places of all symbols but the last, from those of all.
pub fn without_last(symbols: &[u8], places: Layers) -> Layers
    requires { (0 < length symbols.now) × (length symbols.now ≤ longest) × (places ≡ both sum_of_places symbols.now) }
    ensures { result ≡ both sum_of_places (take (length symbols.now - 1) symbols.now) }
{
    let k = symbols.len();
    let x = symbols[k - 1];
    Layers {
        high: places.high - Layer::High.place_if_one(x, k),
        low: places.low - Layer::Low.place_if_one(x, k),
    }
}

// The syndrome of each layer, from the sums of places; by a mask where 2k is a power of two.
pub fn syndromes(symbols: &[u8], places: Layers) -> Layers
    requires { (0 < length symbols.now) × (length symbols.now ≤ longest) × (places ≡ both sum_of_places symbols.now) }
    ensures { result ≡ both syndrome symbols.now }
{
    let k = symbols.len();
    let m = 2 * k;
    if m == 1 << width_of(k) {
        return Layers {
            high: places.high & (m - 1),
            low: places.low & (m - 1),
        };
    }
    Layers {
        high: places.high % m,
        low: places.low % m,
    }
}

// The number that each layer writes, the most significant bit first.
pub fn numbers(symbols: &[u8]) -> Layers
    requires { length symbols.now ≤ widest }
    ensures { result ≡ both number symbols.now }
{
    let mut high: usize = 0;
    let mut low: usize = 0;
    for &x in symbols {
        high = 2 * high + Layer::High.digit(x);
        low = 2 * low + Layer::Low.digit(x);
    }
    Layers { high, low }
}
