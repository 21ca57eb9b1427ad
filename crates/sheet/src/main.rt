// The preemption sheet of the task text on standard input, written to standard output. A text that is refused gives `(refused CODE PLACE)`.
#![tactic(auto)]

ghost use Rattle.std.specs.Prelude.{◌≤◌, length, IfOk};
ghost use Rattle.std.specs.Io.{StartsWith};
ghost use Rattle.print.specs.Print.{Wrote};
ghost use Rattle.sheet.specs.Answer.{refusal_line, Answers, most_line, IsPrefixLen};

use model::{Limits, Refusal};
use print::Writer;
use std::fmt::InlineText;
use std::io;
use std::io::Read;
use std::process::ExitCode;

struct Buffers;

impl Buffers {
    // One byte more than a text may have, so that a longer text is refused as such.
    const TEXT: usize = Limits::BYTES + 1;
    // More than any report has: report_length of the crate report bounds it.
    const OUTPUT: usize = 131072;
    // More than the text of an error has.
    const ERROR: usize = 300;
}

// The price of a move that counts its blocks.
struct InBlocks;

impl InBlocks {
    const START: u32 = 0;

    const EACH: u32 = 1;
}

// Reads until text is full or the input ends, and returns how many bytes were read. A read may bring fewer bytes than there is room for; at the end of the
// input it brings none.
fn read_input(input: &mut impl Read, text: &mut [u8]) -> io::Result<usize>
    ensures { IfOk result (λ n. n ≤ length text.new) }
{
    let mut done = 0;
    while done < text.len() {
        let more = input.read(&mut text[done..])?;
        if more == 0 {
            break;
        }
        done += more;
    }
    Ok(done)
}

// Writes the line of a refusal over the first bytes of the output, and returns how many they are.
fn put_refusal(output: &mut [u8], r: Refusal) -> usize
    requires { most_line ≤ length output.old }
    ensures line { Wrote 0 (refusal_line r) output.old result output.new }
    ensures fits { result ≤ length output.new }
{
    let row = r.row;
    let mut line = Writer {
        out: output,
        end: 0,
    };
    print::put_line(&mut line, b"(refused", &[codes::code_of(row), r.place]);
    line.end
}

// Puts the report of the text, or the line of its refusal, at the front of the output, and returns its length.
fn answer(text: &[u8], output: &mut [u8], work: &mut [u32]) -> usize
    requires { most_line ≤ length output.old }
    ensures answer { Answers text.now output.old work.old result output.new work.new }
    ensures fits { IsPrefixLen result output.new }
{
    let result = services::report(text, InBlocks::START, InBlocks::EACH, output, work);
    match result {
        Ok(n) => n as usize,
        Err(r) => put_refusal(output, r),
    }
}

// The words of the C library for an error, without the number that the error's own text has behind them.
fn words_of(text: &str) -> &str
    ensures { StartsWith text.now result.now }
{
    match text.split_once(" (os error ") {
        Some((words, _)) => words,
        None => text,
    }
}

// Says on standard error what failed, and why.
fn fail(rt: &impl Eprint, what: &str, e: io::Error) -> ExitCode {
    let text = InlineText::<{ Buffers::ERROR }>::of(e);
    let words = words_of(text.as_str());
    let _ = eprintln!(rt; "{what}: {words}");
    ExitCode::FAILURE
}

// What could not be written is said on standard error.
fn write_out(rt: &(impl Print + Eprint), bytes: &[u8]) -> ExitCode {
    match rt.write_all(bytes) {
        Ok(()) => ExitCode::SUCCESS,
        Err(e) => fail(rt, "standard output", e),
    }
}

fn write_answer(rt: &(impl Print + Eprint), text: &[u8]) -> ExitCode {
    let mut output = [0u8; Buffers::OUTPUT];
    let mut work = [0u32; Limits::WORK];
    let n = answer(text, &mut output, &mut work);
    write_out(rt, &output[..n])
}

fn main(rt: HostRuntime) -> ExitCode {
    let mut text = [0u8; Buffers::TEXT];
    match read_input(&mut rt.stdin(), &mut text) {
        Ok(n) => write_answer(&rt, &text[..n]),
        Err(e) => fail(&rt, "standard input", e),
    }
}
