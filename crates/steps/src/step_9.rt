// Step 9: the comparison with the segment written anew.
ghost use Rattle.std.specs.Prelude.{◌≡◌, ◌-◌, ◌≤◌, length, take, drop};
ghost use Rattle.code.specs.Bounds.{Length};
ghost use Rattle.code.specs.Segment.{segment};
ghost use Rattle.code.specs.Edits.{judged};
ghost use Rattle.tail.specs.Tails.{IsTail};
ghost use Rattle.edits.specs.Judgement.{judged_as};

use crate::strand::{Start, Strand};
use code::Verdict;
use edits::judge;
use segment::{put_segment, size_of};
use tail::Tail;

// Step 9: the symbols from the start to before `end` against the segment written anew.
pub fn compared(strand: &Strand, start: Start, message: &[u8], tail: Tail, end: usize) -> Verdict
    requires tail { IsTail message.now tail × Length (length message.now) }
    requires piece { (start.at ≤ end) × (end ≤ length strand.now.symbols.now) }
    ensures { result ≡ judged_as (judged (segment start.marked start.before message.now) (take (end - start.at) (drop start.at strand.now.symbols.now))) }
{
    // Room for the longest segment: nothing is on the heap.
    let mut anew = [0; 272];
    put_segment(start.marked, start.before, message, tail, &mut anew, 0);
    let n = size_of(start.marked, message.len());
    judge(&anew[..n], &strand.symbols[start.at..end])
}
