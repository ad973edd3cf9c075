// Reads two lines, a label and a message in hexadecimal digits, and prints the strand; or `refused` and the number.

#![tactic(auto)]

ghost use Rattle.std.specs.Prelude.{◌≡◌, IfErr, IfSome, OnOk, take, replicate};
ghost use Rattle.std.specs.Io.KnownBytes.{Appends};
ghost use Rattle.console.specs.Streams.{Left};
ghost use Rattle.code.specs.Limits.{most_letters};
ghost use Rattle.code.specs.Order.{order};
ghost use Rattle.code.specs.Writing.{write_call};
ghost use Rattle.text.specs.Put.{Spare, Grown};
ghost use Rattle.write_strand.specs.WriteOutput.{written, write_text, write_output, output_room};

use code::Refusal;
use console::{Failure, Program, put_refused};
use std::env::Env;
use std::io;
use std::process::ExitCode;
use text::Text;
use text::lines::{behind, front, line};

// What a message is written as, for an order.
fn put_strand(out: &mut Text, lengths: &[u16], b: u32, message: &[u8])
    requires { Spare out.old output_room }
    ensures { let o = order lengths.now b in
        Grown out.old (written (write_call o message.now (replicate most_letters 0))) out.new }
{
    let mut strand = [0u8; 4096];
    match writer::write(lengths, b, message, &mut strand) {
        Ok(n) => {
            out.put(front(&strand, n));
            out.put(b"\n");
        }
        Err(r) => put_refused(out, r),
    }
}

// The same for the line that holds the message: at most 512 bytes, two digits each, or refused 2.
fn put_message(out: &mut Text, lengths: &[u16], b: u32, digits: &[u8])
    requires { Spare out.old output_room }
    ensures { let o = order lengths.now b in Grown out.old (write_text o digits.now) out.new }
{
    let mut message = [0u8; 512];
    match text::hex::decode(digits, &mut message) {
        Some(n) => put_strand(out, lengths, b, front(&message, n)),
        None => put_refused(out, Refusal::MessageSize),
    }
}

struct WriteStrand;

impl Program for WriteStrand {
    ghost answer = { write_output };

    ghost room = { output_room };

    // All that is printed for an input.
    fn output(input: &[u8], out: &mut Text) {
        match console::order_of(line(input)) {
            Ok(label) => put_message(out, label.lengths(), label.b, line(behind(input))),
            Err(r) => put_refused(out, r),
        }
    }
}

// What is printed for all that a reader gives, to a writer. The buffer holds every pair of lines that is taken; a line that it does not hold
// whole is refused as too long.
fn run<R: io::Read, W: io::Write>(reader: &mut R, writer: &mut W) -> Result<(), Failure>
    ensures written { OnOk result (IfSome (R.remaining reader.old) (λ input.
        Appends (W.contents writer.old) (W.contents writer.new) (write_output (take 8192 input)))) }
    ensures left { IfErr result (λ failure.
        Left failure (R.remaining reader.old) (W.contents writer.old) (W.contents writer.new) (λ input. write_output (take 8192 input))) }
{
    console::run::<WriteStrand, 8192, 4097, _, _>(reader, writer)
}

fn main(rt: HostRuntime) -> ExitCode {
    let expected =
        b"write_strand takes no arguments. It reads two lines: a label in hexadecimal digits, and a message in hexadecimal digits.\n";
    let first = rt.arg(1, &mut [0u8; 1]);
    console::start(first, &mut rt.stderr(), "write_strand", expected, || {
        run(&mut rt.stdin(), &mut rt.stdout())
    })
}
