// Reads a line, a label in hexadecimal digits, and prints the label on the other side; or `refused` and the number.

#![tactic(auto)]

ghost use Rattle.std.specs.Prelude.{◌≡◌, IfErr, IfSome, OnOk, take, replicate};
ghost use Rattle.std.specs.Io.KnownBytes.{Appends};
ghost use Rattle.console.specs.Streams.{Left};
ghost use Rattle.code.specs.Conversion.{convert_call};
ghost use Rattle.text.specs.Put.{Spare, Grown};
ghost use Rattle.convert_label.specs.ConvertOutput.{most_converted, shown, convert_output, output_room};

use code::Refusal;
use console::{Failure, MOST_LABEL, Program, put_refused};
use std::env::Env;
use std::io;
use std::process::ExitCode;
use text::Text;
use text::lines::{front, line};

// What a label is converted to.
fn put_converted(out: &mut Text, bytes: &[u8])
    requires { Spare out.old output_room }
    ensures { Grown out.old (shown (convert_call bytes.now (replicate most_converted 0))) out.new }
{
    let mut converted = [0u8; 75];
    match label::convert(bytes, &mut converted) {
        Ok(n) => {
            out.put_hex(front(&converted, n));
            out.put(b"\n");
        }
        Err(r) => put_refused(out, r),
    }
}

struct ConvertLabel;

impl Program for ConvertLabel {
    ghost answer = { convert_output };

    ghost room = { output_room };

    // All that is printed for an input.
    fn output(input: &[u8], out: &mut Text) {
        let mut bytes = [0u8; MOST_LABEL];
        match console::label_of(line(input), &mut bytes) {
            Some(n) => put_converted(out, front(&bytes, n)),
            None => put_refused(out, Refusal::Label),
        }
    }
}

// What is printed for all that a reader gives, to a writer. The buffer holds every line that is taken; one that it does not hold
// whole is refused as too long.
fn run<R: io::Read, W: io::Write>(reader: &mut R, writer: &mut W) -> Result<(), Failure>
    ensures written { OnOk result (IfSome (R.remaining reader.old) (λ input.
        Appends (W.contents writer.old) (W.contents writer.new) (convert_output (take 512 input)))) }
    ensures left { IfErr result (λ failure.
        Left failure (R.remaining reader.old) (W.contents writer.old) (W.contents writer.new) (λ input. convert_output (take 512 input))) }
{
    console::run::<ConvertLabel, 512, 151, _, _>(reader, writer)
}

fn main(rt: HostRuntime) -> ExitCode {
    let expected =
        b"convert_label takes no arguments. It reads a line: a label in hexadecimal digits.\n";
    let first = rt.arg(1, &mut [0u8; 1]);
    console::start(first, &mut rt.stderr(), "convert_label", expected, || {
        run(&mut rt.stdin(), &mut rt.stdout())
    })
}
