//! A whole run: lines in, answers out. What a program reads and writes is outside any contract, so these functions are kept thin.

use crate::refusal::{Failure, Refusal};
use crate::station::{Script, ScriptOf, Station};
use script::grammar::Token;
use script::line::{Line, Took};
use std::alloc::Global;
use std::io;
use std::io::{BufWriter, Read, Write};

// The state of the script, the line that is being read, and memory for its tokens.
#[derive(Drop)]
struct Run<const ROUNDS: bool>
where
    ScriptOf<ROUNDS>: Script,
{
    station: Station<ROUNDS>,
    line: Line,
    room: Vec<Token>,
}

// Writes an answer, and ends its line. No Display: an answer is the library's Result.
fn say(out: &mut impl Write, answer: Result<Vec<u32>, Failure>) -> io::Result<()> {
    match answer {
        Ok(numbers) => {
            out.write_all(b"ok")?;
            for n in numbers.iter() {
                write!(out, " {n}")?;
            }
            out.write_all(b"\n")
        }
        Err(Failure::Refused(refusal)) => writeln!(out, "{refusal}"),
        Err(Failure::OutOfMemory(error)) => Err(error.into()),
    }
}

// Says that a line is not of the form.
fn say_not_of_form(out: &mut impl Write) -> io::Result<()> {
    say(out, Err(Refusal::NotOfForm.into()))
}

// Answers the lines that end in a chunk.
fn feed<const ROUNDS: bool>(
    heap: Global,
    out: &mut impl Write,
    run: &mut Run<ROUNDS>,
    chunk: &[u8],
) -> io::Result<()> {
    for byte in chunk {
        match run.line.take(*byte) {
            Took::More => {}
            Took::Whole => {
                let answer = run.station.answer(heap, run.line.bytes(), &mut run.room);
                say(out, answer)?;
                run.line.clear();
            }
            Took::Long => {
                say_not_of_form(out)?;
                run.line.clear();
            }
        }
    }
    Ok(())
}

/// Answers each line of standard input on standard output, of a script with the rounds and the bytes, or without them.
pub fn answer_all<const ROUNDS: bool>(rt: &HostRuntime) -> io::Result<()> {
    let heap = rt.alloc();
    let mut out = BufWriter::new(heap, rt.stdout())?;
    let mut input = rt.stdin();
    let mut chunk = [0u8; 65536];
    let mut run = Run::<ROUNDS> {
        station: Station::new(),
        line: Line::new(),
        room: Vec::new(heap),
    };
    for _ in 0..u64::MAX {
        let n = input.read(&mut chunk)?;
        if n == 0 {
            break;
        }
        feed(heap, &mut out, &mut run, &chunk[0..n])?;
        out.flush()?;
    }
    if run.line.is_begun() {
        say_not_of_form(&mut out)?;
    }
    out.flush()
}
