// The report: reads a dump of at most 65,536 bytes from standard input, in blocks of 4 pages, finds its layout and prints ten lines about it,
// or the one line of a refusal. A dump of which a read failed is not reported on: standard output stays empty, and a sentence on standard error
// says why. The status is 0 all the same: whether standard output is empty tells.
#![tactic(auto)]

ghost use Rattle.std.specs.Prelude.{◌≡◌, ◌≤◌, length, OnOk, IfSome, IsErrOf};
ghost use Rattle.std.specs.Io.KnownBytes.{Appends};
ghost use Rattle.text.specs.Whole.{written_by, bytes_by};
ghost use Rattle.report.specs.Printed.{printed_of};

use input::read_all;
use page::refusal::Refusal;
use std::io;
use std::io::{Read, Write};
use summary::report::{LONGEST, write_refusal, write_report};
use text::written::Short;

// The pages of a block.
const BLOCK: u32 = 4;
// The most bytes of dump that are read, and one more, by which a longer input is told.
const MOST: usize = 65536;

// Writes what is to be printed for an input, if it fits.
fn write_printed(input: &[u8], text: &mut [u8]) -> Result<usize, Short>
    ensures value { result ≡ written_by (length text.old) (printed_of input.now) }
    ensures text_after { text.new ≡ bytes_by (printed_of input.now) text.old }
{
    if MOST < input.len() {
        return write_refusal(Refusal::BadLength, text);
    }
    write_report(input, BLOCK, text)
}

// Writes the report on an input, whole: every report fits.
fn print_report<W: Write>(writer: &mut W, input: &[u8]) -> io::Result<()>
    ensures { OnOk result (Appends (W.contents writer.old) (W.contents writer.new) (printed_of input.now)) }
{
    let mut text = [0u8; LONGEST];
    let n = write_printed(input, &mut text).unwrap();
    writer.write_all(&text[..n])
}

// Why no report is printed.
enum Failure {
    // a read failed, and nothing was written
    Unread,
    // a write failed
    Unwritten,
}

// Reads an input and writes the report on it. Where the bytes that a reader has are known, it is the report on all of them, and where a read fails
// nothing is written.
fn run<R: Read, W: Write>(reader: &mut R, writer: &mut W) -> Result<(), Failure>
    ensures printed { OnOk result (IfSome (R.remaining reader.old)
        (λ bytes. Appends (W.contents writer.old) (W.contents writer.new) (printed_of bytes))) }
    ensures unread { IsErrOf result Failure.Unread → writer.new ≡ writer.old }
{
    let mut buffer = [0u8; MOST + 1];
    let n = read_all(reader, &mut buffer).map_err(|_| Failure::Unread)?;
    print_report(writer, &buffer[..n]).map_err(|_| Failure::Unwritten)
}

// Says a sentence on standard error. Where it cannot be written, nobody is left to tell.
fn say(rt: &impl Eprint, sentence: &str) {
    let _ = rt.eprintln(sentence);
}

fn main(rt: HostRuntime) {
    match run(&mut rt.stdin(), &mut rt.stdout()) {
        Ok(()) => {}
        Err(Failure::Unread) => say(&rt, "report: the input could not be read"),
        Err(Failure::Unwritten) => say(&rt, "report: the report could not be written"),
    }
}
