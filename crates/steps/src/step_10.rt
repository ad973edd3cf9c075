// Step 10: a lost segment, and where the search for those behind it finds one.
ghost use Rattle.std.specs.Prelude.{◌≡◌, length};
ghost use Rattle.scan.specs.Scans.{start_of, Known};
ghost use Rattle.steps.specs.Steps.{lost_from, AtStart, SteppedLost};

use crate::Answer;
use crate::strand::{Start, Strand};
use code::Verdict;
use copying::put_zeros;
use scan::{Next, find_clean};
use segment::size_of;

// Step 10: which later segment stands where behind a lost one of k message symbols; `rest` is the lengths behind it.
fn scan_behind(strand: &Strand, start: Start, k: usize, rest: &[u16]) -> Next
    requires { AtStart strand.now start rest.now k }
    ensures start { start_of result ≡ (lost_from strand.now start k rest.now 0).next }
    ensures known { Known strand.now.symbols.now strand.now.letters.now rest.now result }
{
    let mut centre = size_of(start.marked, k);
    for (passed, &later) in rest.iter().enumerate() {
        let sought = later as usize;
        let wide = 8 * (passed + 1);
        // No start of this window or a later one has room.
        if strand.letters.len() + wide <= start.at + centre {
            return Next::Nowhere;
        }
        let passed = passed as u16;
        let next = find_clean(strand.letters, start.at, centre, sought, wide, None, passed);
        if let Next::Clean(_, _, _) = next {
            return next;
        }
        centre += size_of(true, sought);
    }
    Next::Nowhere
}

// A segment that a step loses comes straight to step 10.
pub fn lost(strand: &Strand, start: Start, rest: &[u16], step: u8, out: &mut [u8]) -> Answer
    requires { AtStart strand.now start rest.now (length out.old) }
    ensures { SteppedLost strand.now start step rest.now out.old out.new result }
{
    put_zeros(out);
    Answer {
        verdict: Verdict::Lost(step),
        next: scan_behind(strand, start, out.len(), rest),
    }
}
