// What each edition carries, and how wide its fields are.
ghost use Rattle.std.specs.Prelude.{◌≡◌, ◌&&◌, eqb};
ghost use Rattle.code.specs.Order.{order};
ghost use Rattle.code.specs.Label as L;
ghost use Rattle.label.specs.Editions.{edition_number, Names};

use code::Refusal;
use refusal::limits::{MOST_SEGMENTS, OLD_BYTES, OLD_LENGTH};
use refusal::order::Order;

// An edition of the label: 1 for equal lengths, 2 and 3 with the lengths listed.
#[derive(Clone, Copy, Debug, PartialEq, Eq)]
pub enum Edition {
    One,
    Two,
    Three,
}

// The number of an edition.
impl From<Edition> for u32 {
    ghost from_gives = { λ e n. n ≡ edition_number e };

    fn from(edition: Edition) -> u32 {
        match edition {
            Edition::One => 1,
            Edition::Two => 2,
            Edition::Three => 3,
        }
    }
}

// The edition that a number names; any other number is turned down.
impl TryFrom<u32> for Edition {
    type Error = Refusal;

    ghost try_from_gives = { Names };

    fn try_from(number: u32) -> Result<Edition, Refusal> {
        match number {
            1 => Ok(Edition::One),
            2 => Ok(Edition::Two),
            3 => Ok(Edition::Three),
            _ => Err(Refusal::Label),
        }
    }
}

impl Edition {
    // How many bits B has.
    pub fn bytes_bits(self) -> usize
        ensures { result ≡ L.bytes_bits (edition_number self) }
    {
        match self {
            Edition::One | Edition::Two => 8,
            Edition::Three => 10,
        }
    }

    // How many bits a length has.
    pub fn length_bits(self) -> usize
        ensures { result ≡ L.length_bits (edition_number self) }
    {
        match self {
            Edition::One | Edition::Two => 7,
            Edition::Three => 9,
        }
    }

    // The lengths are listed.
    pub fn lists(self) -> bool
        ensures { result ≡ L.lists (edition_number self) }
    {
        self != Edition::One
    }

    // The tests 1, 2 and 3 of an order in a label.
    pub fn test(self, lengths: &[u16], b: u32) -> Result<(), Refusal>
        ensures { result ≡ L.test_in (edition_number self) (order lengths.now b) }
    {
        match self {
            Edition::One | Edition::Two => refusal::test_within(
                OLD_LENGTH, OLD_BYTES, lengths, b, false,
            ),
            Edition::Three => refusal::order_test(lengths, b, false),
        }
    }

    // The lengths are listed and must not be: edition 2 lists no equal ones, which have edition 1.
    pub fn is_misplaced(self, lengths: &[u16]) -> bool
        ensures { result ≡ (eqb (edition_number self) 2 && L.equal lengths.now) }
    {
        self == Edition::Two && equal(lengths)
    }
}

// There are 1 to 64 lengths, all equal.
pub fn equal(lengths: &[u16]) -> bool
    ensures { result ≡ L.equal lengths.now }
{
    let [first, ..] = lengths else {
        return false;
    };
    lengths.len() <= MOST_SEGMENTS && lengths.iter().all(|k| k == first)
}

// The old editions, 1 and 2, do not carry an order.
pub fn too_large(order: &Order) -> bool
    ensures { result ≡ L.too_large order.now }
{
    refusal::bad_length(order.lengths(), OLD_LENGTH) || OLD_BYTES < order.bytes() as usize
}
