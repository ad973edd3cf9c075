// Steps 8 to 10 of a segment, from what steps 2 to 7 made of its message.
ghost use Rattle.std.specs.Prelude.{◌≡◌, length, drop};
ghost use Rattle.code.specs.Reading as R;
ghost use Rattle.tail.specs.Tails.{IsTail};
ghost use Rattle.message.specs.MessageAnswers.{separator_as, IsMessageResult};
ghost use Rattle.steps.specs.Step8.{separator_in};
ghost use Rattle.steps.specs.Steps.{message_from, AtStart, Stepped};

use crate::Answer;
use crate::step_8::end_of;
use crate::step_9::compared;
use crate::step_10::lost;
use crate::strand::{Start, Strand};
use code::Verdict;
use message::Shift;
use scan::Next;
use tail::Tail;

// Steps 8 to 10 of a segment whose message was read.
fn ended(
    strand: &Strand,
    start: Start,
    rest: &[u16],
    found: Option<Shift>,
    tail: Tail,
    out: &mut [u8],
) -> Answer
    requires at_start { AtStart strand.now start rest.now (length out.old) }
    requires found { found ≡ separator_as (separator_in strand.now start (length out.old)) }
    requires tail { IsTail out.old tail }
    requires message { message_from strand.now start (length out.old) ≡ R.message out.old }
    ensures { Stepped strand.now start rest.now out.old out.new result }
{
    let next = end_of(strand, start, out, tail, found, rest);
    if let Next::Nowhere = next {
        return lost(strand, start, rest, 8, out);
    }
    let end = next.place(strand.symbols.len());
    let verdict = compared(strand, start, out, tail, end);
    if let Verdict::Lost(step) = verdict {
        return lost(strand, start, rest, step, out);
    }
    Answer { verdict, next }
}

// Steps 8 to 10 of a segment whose message was read, or lost in a step.
pub fn finished(
    strand: &Strand,
    start: Start,
    rest: &[u16],
    found: Option<Shift>,
    read: Result<Tail, message::Lost>,
    out: &mut [u8],
) -> Answer
    requires at_start { AtStart strand.now start rest.now (length out.old) }
    requires found { found ≡ separator_as (separator_in strand.now start (length out.old)) }
    requires message { IsMessageResult (message_from strand.now start (length out.old)) out.old read }
    ensures { Stepped strand.now start rest.now out.old out.new result }
{
    match read {
        Ok(tail) => ended(strand, start, rest, found, tail, out),
        Err(e) => lost(strand, start, rest, e.step, out),
    }
}
