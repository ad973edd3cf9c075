// What was read of an order's segments.
ghost use Rattle.std.specs.Prelude.{◌≡◌, map, ◌*◌, ◌<◌, ◌≤◌, length, get_or};
ghost use Rattle.code.specs.Limits.{most_segments};
ghost use Rattle.code.specs.Buffers.{over_front};
ghost use Rattle.code.specs.Strands.{outcomes, messages_of, verdicts_of};
ghost use Rattle.code.specs.Verdicts.{verdict_number};
ghost use Rattle.reading.specs.Walks.{ends_from, start_in};

use crate::{read_order, start_of};
use code::Span;
use refusal::order::Order;
use std::marker::Model;
use symbols::letters::Letters;

// The verdicts of an order's segments as numbers, and where their pieces end, in arrays that are lent. Numbers, since an array of verdicts takes about
// three times as long to fill; apart from the ends, since they go on alone.
#[derive(Drop)]
pub struct Segments<'a> {
    pub(crate) verdicts: &'a [u32],
    pub(crate) ends: &'a [u16],
}

impl<'a> Model for Segments<'a> {
    ghost use Rattle.std.specs.Prelude.{◌≡◌, ◌≤◌, length};
    ghost use Rattle.code.specs.Limits as L;
    ghost use Rattle.reading.specs.Walks as W;

    ghost Value = { W.Told };

    ghost view = { λ s. record { numbers = s.verdicts.now; ends = s.ends.now } };

    ghost invariant = { λ s. length s.verdicts.now ≤ L.most_segments };
}

impl<'a> Segments<'a> {
    // Reads the segments of an order: their messages go to the front of `symbols`.
    pub fn read(
        order: &Order,
        letters: &Letters,
        symbols: &mut [u8],
        verdicts: &'a mut [u32; 64],
        ends: &'a mut [u16; 64],
    ) -> Segments<'a>
        requires { 4 * order.now.b ≤ length symbols.old }
        ensures messages { symbols.new ≡ over_front (messages_of (outcomes order.now.lengths letters.now)) symbols.old }
        ensures numbers { result.numbers ≡ map verdict_number (verdicts_of (outcomes order.now.lengths letters.now)) }
        ensures places { result.ends ≡ ends_from 0 (outcomes order.now.lengths letters.now) }
    {
        let lengths = order.lengths();
        let l = lengths.len();
        read_order(
            lengths,
            order.bytes(),
            letters.numbers(),
            letters.has_unknown(),
            symbols,
            &mut verdicts[..l],
            &mut ends[..l],
        );
        Segments {
            verdicts: &verdicts[..l],
            ends: &ends[..l],
        }
    }

    // The numbers of the verdicts.
    pub fn verdicts(&self) -> &'a [u32]
        ensures value { result.now ≡ self.now.numbers }
        ensures fit { length result.now ≤ most_segments }
    {
        self.verdicts
    }

    // Where the piece behind the first i stands: it starts where the one before it ends.
    pub fn span(&self, i: usize) -> Span
        requires { i < length self.now.ends }
        ensures { result ≡ record { start = start_in self.now.ends i; end = get_or self.now.ends i 0 } }
    {
        Span {
            start: start_of(self.ends, i),
            end: self.ends[i] as usize,
        }
    }
}
