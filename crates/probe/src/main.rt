// Reads a surface file from standard input, up to one byte more than the largest that is taken, and
// prints the text that it gives. A read or a write that fails is told on standard error and ends the program
// with status 1, and no text is printed of a file that could not be read to its end.
#![tactic(auto)]

ghost use Rattle.std.specs.Prelude.{◌≤◌, ◌<◌, length, take, IfOk, IfSome, OnOk};
ghost use Rattle.std.specs.Io.KnownBytes.{Appends, Consumes, IsAtEnd};
ghost use Rattle.surface.specs.Report.{report_of};
ghost use Rattle.probe.specs.Failure.{PrintsNothing};

use std::io::{Cursor, Read, Write};
use std::process::ExitCode;
use std::{io, str};
use surface::report::probe;

// What failed, and why.
#[derive(Clone, Copy)]
enum Failure {
    Input(io::Error),
    Output(io::Error),
}

// Reads until the input ends or `bytes` is full, and answers how many bytes were read.
fn read_input<R: Read>(input: &mut R, bytes: &mut [u8; 65537]) -> io::Result<usize>
    ensures within { IfOk result (λ n. n ≤ length bytes.new) }
    ensures taken { IfOk result (λ n. Consumes (R.remaining input.old) (R.remaining input.new) (take n bytes.new)) }
    ensures ended { IfOk result (λ n. n < length bytes.new → IsAtEnd (R.remaining input.new)) }
{
    let mut done: usize = 0;
    while done < bytes.len() {
        let more = input.read(&mut bytes[done..])?;
        if more == 0 {
            return Ok(done);
        }
        done += more;
    }
    Ok(done)
}

// Prints the text of the input's first 65,537 bytes, or of all where it has fewer. Where a read fails it
// prints nothing.
fn run<R: Read, W: Write>(input: &mut R, output: &mut W) -> Result<(), Failure>
    ensures printed { OnOk result (IfSome (R.remaining input.old)
        (λ xs. Appends (W.contents output.old) (W.contents output.new) (report_of (take 65537 xs)))) }
    ensures unread { PrintsNothing result (W.contents output.old) (W.contents output.new) }
{
    let mut bytes = [0u8; 65537];
    let mut text = [0u8; 204834];
    let n = read_input(input, &mut bytes).map_err(Failure::Input)?;
    let m = probe(&bytes[..n], &mut text);
    output.write_all(&text[..m]).map_err(Failure::Output)
}

// Tells on standard error what failed, and why, in the system's words alone: std puts the error's number
// behind them, as in "Is a directory (os error 21)".
fn tell(rt: &impl Eprint, what: &str, error: io::Error) -> ExitCode {
    let mut writer = Cursor::new([0u8; 128]);
    // A longer text is cut.
    let _ = write!(writer, "{error}");
    let end = writer.position().min(128) as usize;
    let bytes = writer.into_inner();
    let text = str::from_utf8(&bytes[..end]).unwrap_or("");
    let words = match text.split_once(" (os error ") {
        Some((words, _)) => words,
        None => text,
    };
    // Where standard error fails too, there is nowhere to tell it.
    let _ = eprintln!(rt; "probe: {what}: {words}");
    ExitCode::FAILURE
}

fn main(rt: HostRuntime) -> ExitCode {
    match run(&mut rt.stdin(), &mut rt.stdout()) {
        Ok(()) => ExitCode::SUCCESS,
        Err(Failure::Input(e)) => tell(&rt, "standard input", e),
        Err(Failure::Output(e)) => tell(&rt, "standard output", e),
    }
}
