// Reads two lines, a label and a strand, and prints for each segment what happened to it; or `refused` and the number.

#![tactic(auto)]

ghost use Rattle.std.specs.Prelude.{◌≡◌, IfErr, IfSome, OnOk, take};
ghost use Rattle.std.specs.Io.KnownBytes.{Appends};
ghost use Rattle.console.specs.Streams.{Left};
ghost use Rattle.code.specs.Order.{order};
ghost use Rattle.text.specs.Put.{Spare, Grown};
ghost use Rattle.lines.specs.Report.{most_report};
ghost use Rattle.report_strand.specs.ReportOutput.{report_text, report_output};

use console::{Failure, Program, put_refused};
use std::env::Env;
use std::io;
use std::process::ExitCode;
use text::Text;
use text::lines::{behind, front, line};

// What is reported of letters, for an order.
fn put_report(out: &mut Text, lengths: &[u16], b: u32, letters: &[u8])
    requires { Spare out.old most_report }
    ensures { let o = order lengths.now b in Grown out.old (report_text o letters.now) out.new }
{
    let mut lines = [0u8; 960];
    match report::write(lengths, b, letters, &mut lines) {
        Ok(n) => out.put(front(&lines, n)),
        Err(r) => put_refused(out, r),
    }
}

struct ReportStrand;

impl Program for ReportStrand {
    ghost answer = { report_output };

    ghost room = { most_report };

    // All that is printed for an input.
    fn output(input: &[u8], out: &mut Text) {
        match console::order_of(line(input)) {
            Ok(label) => put_report(out, label.lengths(), label.b, line(behind(input))),
            Err(r) => put_refused(out, r),
        }
    }
}

// What is printed for all that a reader gives, to a writer. The buffer holds every pair of lines that is taken; a line that it does not hold
// whole is refused as too long.
fn run<R: io::Read, W: io::Write>(reader: &mut R, writer: &mut W) -> Result<(), Failure>
    ensures written { OnOk result (IfSome (R.remaining reader.old) (λ input.
        Appends (W.contents writer.old) (W.contents writer.new) (report_output (take 8192 input)))) }
    ensures left { IfErr result (λ failure.
        Left failure (R.remaining reader.old) (W.contents writer.old) (W.contents writer.new) (λ input. report_output (take 8192 input))) }
{
    console::run::<ReportStrand, 8192, 960, _, _>(reader, writer)
}

fn main(rt: HostRuntime) -> ExitCode {
    let expected =
        b"report_strand takes no arguments. It reads two lines: a label in hexadecimal digits, and a strand in the letters A, T, C, G and N.\n";
    let first = rt.arg(1, &mut [0u8; 1]);
    console::start(first, &mut rt.stderr(), "report_strand", expected, || {
        run(&mut rt.stdin(), &mut rt.stdout())
    })
}
