// A program as what it prints for an input, its run from a reader to a writer, and its way from a start to an exit status.
ghost use Rattle.std.specs.Prelude.{◌≡◌, List, ℕ, ◌<◌, ◌≤◌, true, false, IfErr, IfSome, MatchResult, OnOk, take};
ghost use Rattle.std.specs.Io.KnownBytes.{Appends};
ghost use Rattle.std.specs.Process.{exit_status};
ghost use Rattle.text.specs.Put.{Spare, Grown};
ghost use Rattle.console.specs.Streams.{is_given, Left};

use crate::{Failure, ended, is_wrong_use, read_input, write_output};
use std::env::FillError;
use std::io;
use std::process::ExitCode;
use text::Text;
use text::lines::front;

// A program: the text that answers an input, and room that is enough for it.
pub trait Program {
    ghost answer: { List ℕ → List ℕ };

    ghost room: { ℕ };

    // All that is printed for an input.
    fn output(input: &[u8], out: &mut Text)
        requires { Spare out.old room }
        ensures { Grown out.old (answer input.now) out.new };
}

// What is printed for all that a reader gives, to a writer. Of the input no more than the first `IN` bytes are read.
pub fn run<P: Program, const IN: usize, const OUT: usize, R: io::Read, W: io::Write>(
    reader: &mut R,
    writer: &mut W,
) -> Result<(), Failure>
    requires buffers { (IN < 65536) × (OUT < 65536) × (P.room ≤ OUT) }
    ensures written { OnOk result (IfSome (R.remaining reader.old) (λ input.
        Appends (W.contents writer.old) (W.contents writer.new) (P.answer (take IN input)))) }
    ensures left { IfErr result (λ failure.
        Left failure (R.remaining reader.old) (W.contents writer.old) (W.contents writer.new) (λ input. P.answer (take IN input))) }
{
    let mut input = [0u8; IN];
    let n = read_input(reader, &mut input).map_err(Failure::Reading)?;
    let mut room = [0u8; OUT];
    let mut out = Text::new(&mut room);
    P::output(front(&input, n), &mut out);
    write_output(writer, out.bytes()).map_err(Failure::Writing)
}

// A program's exit status, by what is answered when its first argument is asked for: a wrong use is told what is expected, and any other runs.
pub fn start<W: io::Write, F: FnOnce() -> Result<(), Failure>>(
    first: Result<usize, FillError>,
    told: &mut W,
    program: &str,
    expected: &[u8],
    run: F,
) -> ExitCode
    requires { F.IsAlwaysCallable run }
    ensures wrong { is_given first ≡ true → exit_status result ≡ 0 }
    ensures right { is_given first ≡ false →
        (ran : _) × F.post run ran × MatchResult ran (λ _. exit_status result ≡ 0) (λ _. exit_status result ≡ 1) }
{
    let Ok(false) = is_wrong_use(first, told, expected) else {
        return ExitCode::SUCCESS;
    };
    ended(told, program, run())
}
