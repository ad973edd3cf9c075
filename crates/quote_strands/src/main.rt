// Reads two lines, a label and a number of strands in decimal digits, and prints what they take; or `refused` and the number.

#![tactic(auto)]

ghost use Rattle.std.specs.Prelude.{◌≡◌, IfErr, IfSome, OnOk, take};
ghost use Rattle.std.specs.Io.KnownBytes.{Appends};
ghost use Rattle.console.specs.Streams.{Left};
ghost use Rattle.code.specs.Order.{order};
ghost use Rattle.code.specs.Quote.{quote_call};
ghost use Rattle.text.specs.Put.{Spare, Grown};
ghost use Rattle.quote_strands.specs.QuoteOutput.{shown, quote_text, quote_output, output_room};

use code::Refusal;
use console::{Failure, Program, put_refused};
use std::env::Env;
use std::io;
use std::process::ExitCode;
use text::Text;
use text::lines::{behind, line};

// What so many strands of an order take.
fn put_quote(out: &mut Text, lengths: &[u16], b: u32, strands: u16)
    requires { Spare out.old output_room }
    ensures { let o = order lengths.now b in Grown out.old (shown (quote_call o strands)) out.new }
{
    match quote::quote(lengths, b, strands) {
        Ok(q) => out.put_three(
            b"letters ",
            q.letters,
            b"\nsheet bytes ",
            q.bytes,
            b"\nstarts ",
            q.starts,
        ),
        Err(r) => put_refused(out, r),
    }
}

// The same for the line that holds the number of strands, or refused 2.
fn put_strands(out: &mut Text, lengths: &[u16], b: u32, digits: &[u8])
    requires { Spare out.old output_room }
    ensures { let o = order lengths.now b in Grown out.old (quote_text o digits.now) out.new }
{
    match text::decimal::number_of(digits) {
        Some(n) => put_quote(out, lengths, b, n),
        None => put_refused(out, Refusal::MessageSize),
    }
}

struct QuoteStrands;

impl Program for QuoteStrands {
    ghost answer = { quote_output };

    ghost room = { output_room };

    // All that is printed for an input.
    fn output(input: &[u8], out: &mut Text) {
        match console::order_of(line(input)) {
            Ok(label) => put_strands(out, label.lengths(), label.b, line(behind(input))),
            Err(r) => put_refused(out, r),
        }
    }
}

// What is printed for all that a reader gives, to a writer. The buffer holds every pair of lines that is taken; a line that it does not hold
// whole is refused as too long.
fn run<R: io::Read, W: io::Write>(reader: &mut R, writer: &mut W) -> Result<(), Failure>
    ensures written { OnOk result (IfSome (R.remaining reader.old) (λ input.
        Appends (W.contents writer.old) (W.contents writer.new) (quote_output (take 512 input)))) }
    ensures left { IfErr result (λ failure.
        Left failure (R.remaining reader.old) (W.contents writer.old) (W.contents writer.new) (λ input. quote_output (take 512 input))) }
{
    console::run::<QuoteStrands, 512, 60, _, _>(reader, writer)
}

fn main(rt: HostRuntime) -> ExitCode {
    let expected =
        b"quote_strands takes no arguments. It reads two lines: a label in hexadecimal digits, and a number of strands in decimal digits.\n";
    let first = rt.arg(1, &mut [0u8; 1]);
    console::start(first, &mut rt.stderr(), "quote_strands", expected, || {
        run(&mut rt.stdin(), &mut rt.stdout())
    })
}
