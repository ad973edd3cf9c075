// What the programs share: standard input and output, the label's line, the line for a refusal, and what is said to a wrong use.

#![tactic(auto)]

mod program;
#[cfg(test)]
mod tests;

ghost use Rattle.std.specs.Prelude.{◌≡◌, ◌<◌, ◌≤◌, true, IfOk, IfSome, MatchResult, OnErr, OnOk, length, take};
ghost use Rattle.std.specs.Io.KnownBytes.{Appends, Consumes, Keeps};
ghost use Rattle.std.specs.Process.{exit_status};
ghost use Rattle.text.specs.Put.{Spare, Grown};
ghost use Rattle.console.specs.Streams.{is_given, SaidIf, Came, Went};
ghost use Rattle.console.specs.LabelLine.{most_label, Held, order_line};
ghost use Rattle.console.specs.RefusedLine.{refused_line, refused_room};

use code::{Labelled, Refusal};
pub use program::{Program, run, start};
use std::env::FillError;
use std::io;
use std::io::Write;
use std::process::ExitCode;
use text::Text;
use text::lines::front;

// What a program can't go on after: a read of its input or a write of its output that failed.
#[derive(Clone, Copy)]
pub enum Failure {
    Reading(io::Error),
    Writing(io::Error),
}

// Whether the program was started with arguments, which it doesn't take, by what is answered when the first is asked for; then `expected` goes
// to `told`, which is standard error. A right use has no error.
pub fn is_wrong_use<W: io::Write>(
    first: Result<usize, FillError>,
    told: &mut W,
    expected: &[u8],
) -> io::Result<bool>
    ensures wrong { IfOk result (λ wrong. wrong ≡ is_given first) }
    ensures said { IfOk result (λ wrong. SaidIf wrong (W.contents told.old) (W.contents told.new) expected.now) }
    ensures given { OnErr result (is_given first ≡ true) }
    ensures part { OnErr result (Went (W.contents told.old) (W.contents told.new) expected.now) }
{
    match first {
        Err(FillError::NotPresent) => Ok(false),
        _ => {
            write_output(told, expected)?;
            Ok(true)
        }
    }
}

// A reader's bytes at the front of `input`, up to its end or until there is no more room, however many reads it takes; the answer is their
// number. What came before a read that failed stands there too.
pub fn read_input<R: io::Read>(reader: &mut R, input: &mut [u8]) -> io::Result<usize>
    ensures within { IfOk result (λ n. n ≤ length input.old) }
    ensures bytes { IfOk result (λ n. Consumes (R.remaining reader.old) (R.remaining reader.new) (take n input.new)) }
    ensures whole { IfOk result (λ n. IfSome (R.remaining reader.old) (λ all. take n input.new ≡ take (length input.old) all)) }
    ensures room { OnErr result (0 < length input.old) }
    ensures part { OnErr result (Came (R.remaining reader.old) (R.remaining reader.new) input.new) }
{
    // By hand: std reads to the end, or as many bytes as there is room for.
    let mut done = 0;
    while done < input.len() {
        let n = reader.read(&mut input[done..])?;
        if n == 0 {
            return Ok(done);
        }
        done += n;
    }
    Ok(done)
}

// All of `output` to a writer, however many writes it takes; its first bytes where a write fails. One that takes nothing has failed.
pub fn write_output<W: io::Write>(writer: &mut W, output: &[u8]) -> io::Result<()>
    ensures whole { OnOk result (Appends (W.contents writer.old) (W.contents writer.new) output.now) }
    ensures some { OnErr result (0 < length output.now) }
    ensures part { OnErr result (Went (W.contents writer.old) (W.contents writer.new) output.now) }
{
    // By hand: std's write_all does not say what a failed write has written.
    let mut done = 0;
    while done < output.len() {
        let sent = writer.write(&output[done..])?;
        if sent == 0 {
            return Err(io::Error::from(io::ErrorKind::WriteZero));
        }
        done += sent;
    }
    Ok(())
}

// A failure in a line: the program's name, what failed, and the system's reason, without the error's number that std puts behind it.
fn tell<W: io::Write>(told: &mut W, program: &str, task: &str, error: io::Error) -> io::Result<()> {
    let mut text = io::Cursor::new([0u8; 256]);
    let _ = write!(text, "{error}");
    let words = front(text.get_ref(), text.position() as usize);
    let number = b" (os error ".as_slice();
    let end = words.windows(number.len()).position(|w| w == number);
    write!(told, "{program}: {task}: ")?;
    told.write_all(front(words, end.unwrap_or(words.len())))?;
    told.write_all(b"\n")
}

// How a program ends: with 0 and no word, or, after a failure, which is told on standard error, with 1.
pub fn ended<W: io::Write>(told: &mut W, program: &str, ran: Result<(), Failure>) -> ExitCode
    ensures status { MatchResult ran (λ _. exit_status result ≡ 0) (λ _. exit_status result ≡ 1) }
    ensures quiet { OnOk ran (Keeps (W.contents told.old) (W.contents told.new)) }
{
    let said = match ran {
        Ok(()) => return ExitCode::from(0),
        Err(Failure::Reading(error)) => tell(told, program, "reading the input", error),
        Err(Failure::Writing(error)) => tell(told, program, "writing the output", error),
    };
    let _ = said;
    ExitCode::from(1)
}

// The line for a refusal.
pub fn put_refused(out: &mut Text, r: Refusal)
    requires { Spare out.old refused_room }
    ensures { Grown out.old (refused_line r) out.new }
{
    out.put_named(b"refused ", u64::from(u8::from(r)));
    out.put(b"\n");
}

// The most bytes that a label needs: one of edition 3 that lists 127 lengths.
pub const MOST_LABEL: usize = 146;

// The bytes of the label that a line holds, at the front of `label`, and their number: exactly those that the label needs, two digits each. None is
// for a line that holds none.
pub fn label_of(line: &[u8], label: &mut [u8]) -> Option<usize>
    requires { most_label ≤ length label.old }
    ensures { Held line.now result label.new }
{
    let n = text::hex::decode(line, label)?;
    if !label::is_whole(front(label, n)) {
        return None;
    }
    Some(n)
}

// The order of the line that holds the label, or refused 8.
pub fn order_of(line: &[u8]) -> Result<Labelled, Refusal>
    ensures { result ≡ order_line line.now }
{
    let mut bytes = [0u8; MOST_LABEL];
    let n = label_of(line, &mut bytes).ok_or(Refusal::Label)?;
    label::read(front(&bytes, n))
}
