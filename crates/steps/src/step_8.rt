// Step 8: where a segment ends.
ghost use Rattle.std.specs.Prelude.{◌≡◌, false, ◌<◌, length};
ghost use Rattle.tail.specs.Tails.{IsTail};
ghost use Rattle.message.specs.MessageAnswers.{separator_as};
ghost use Rattle.steps.specs.Step8.{separator_in, settled_at, IsEnd};
ghost use Rattle.steps.specs.Steps.{AtStart};

use crate::strand::{Start, Strand};
use clean::syndrome_at;
use message::{Shift, after_separator};
use scan::{Next, find_clean};
use segment::{data_at, size_of};
use tail::{Tail, last_of};

// The end that the symbols after the separator don't settle: where a clean segment of the first of the lengths `rest` starts.
fn end_at_clean(strand: &Strand, start: Start, message: &[u8], tail: Tail, rest: &[u16]) -> Next
    requires at_start { AtStart strand.now start rest.now (length message.now) × (0 < length rest.now) }
    requires tail { IsTail message.now tail }
    requires unsettled { settled_at strand.now start message.now ≡ false }
    ensures { IsEnd strand.now start message.now rest.now result }
{
    let n = size_of(start.marked, message.len());
    let f = last_of(tail);
    find_clean(strand.letters, start.at, n, rest[0] as usize, 1, Some(f), 0)
}

// Step 8: where the segment of a message ends; `rest` is the lengths behind it.
pub fn end_of(
    strand: &Strand,
    start: Start,
    message: &[u8],
    tail: Tail,
    found: Option<Shift>,
    rest: &[u16],
) -> Next
    requires at_start { AtStart strand.now start rest.now (length message.now) }
    requires tail { IsTail message.now tail }
    requires found { found ≡ separator_as (separator_in strand.now start (length message.now)) }
    ensures { IsEnd strand.now start message.now rest.now result }
{
    if rest.is_empty() {
        return Next::At(strand.symbols.len(), last_of(tail));
    }
    let Some(shift) = found else {
        return end_at_clean(strand, start, message, tail, rest);
    };
    let after = after_separator(start.at + data_at(start.marked), message.len(), shift);
    if syndrome_at(tail, strand.symbols, after) {
        return Next::At(after + tail.width, last_of(tail));
    }
    end_at_clean(strand, start, message, tail, rest)
}
