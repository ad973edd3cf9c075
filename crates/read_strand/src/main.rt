// Reads two lines, a label and a strand, and prints the message in hexadecimal digits and the counts; or `refused` and the number.

#![tactic(auto)]

ghost use Rattle.std.specs.Prelude.{◌≡◌, IfErr, IfSome, OnOk, take};
ghost use Rattle.std.specs.Io.KnownBytes.{Appends};
ghost use Rattle.console.specs.Streams.{Left};
ghost use Rattle.code.specs.Order.{order};
ghost use Rattle.text.specs.Put.{Spare, Grown};
ghost use Rattle.read_strand.specs.ReadOutput.{read_text, read_output, output_room};

use console::{Failure, Program, put_refused};
use std::env::Env;
use std::io;
use std::process::ExitCode;
use text::Text;
use text::lines::{behind, front, line};

// What letters are read as, for an order.
fn put_reading(out: &mut Text, lengths: &[u16], b: u32, letters: &[u8])
    requires { Spare out.old output_room }
    ensures { let o = order lengths.now b in Grown out.old (read_text o letters.now) out.new }
{
    let mut message = [0u8; 512];
    let mut sheet = [0u8; 16];
    match reader::read(lengths, b, letters, &mut message, &mut sheet) {
        Ok(counts) => {
            out.put_hex(front(&message, b as usize));
            out.put(b"\n");
            out.put_three(
                b"clean ",
                counts.clean,
                b" corrected ",
                counts.corrected,
                b" lost ",
                counts.lost,
            );
        }
        Err(r) => put_refused(out, r),
    }
}

struct ReadStrand;

impl Program for ReadStrand {
    ghost answer = { read_output };

    ghost room = { output_room };

    // All that is printed for an input.
    fn output(input: &[u8], out: &mut Text) {
        match console::order_of(line(input)) {
            Ok(label) => put_reading(out, label.lengths(), label.b, line(behind(input))),
            Err(r) => put_refused(out, r),
        }
    }
}

// What is printed for all that a reader gives, to a writer. The buffer holds every pair of lines that is taken; a line that it does not hold
// whole is refused as too long.
fn run<R: io::Read, W: io::Write>(reader: &mut R, writer: &mut W) -> Result<(), Failure>
    ensures written { OnOk result (IfSome (R.remaining reader.old) (λ input.
        Appends (W.contents writer.old) (W.contents writer.new) (read_output (take 8192 input)))) }
    ensures left { IfErr result (λ failure.
        Left failure (R.remaining reader.old) (W.contents writer.old) (W.contents writer.new) (λ input. read_output (take 8192 input))) }
{
    console::run::<ReadStrand, 8192, 1079, _, _>(reader, writer)
}

fn main(rt: HostRuntime) -> ExitCode {
    let expected =
        b"read_strand takes no arguments. It reads two lines: a label in hexadecimal digits, and a strand in the letters A, T, C, G and N.\n";
    let first = rt.arg(1, &mut [0u8; 1]);
    console::start(first, &mut rt.stderr(), "read_strand", expected, || {
        run(&mut rt.stdin(), &mut rt.stdout())
    })
}
