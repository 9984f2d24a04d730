// The program: reads a header and frames from its input, and writes the lines of document 01 to standard output. The input has any size and comes in
// any pieces. Here it reads and writes; what it makes of what it read, and what it hands on to be written, is program's.
// Stays: two buffers side by side, at each function: as C lends them.
#![tactic(auto)]

ghost use Rattle.std.specs.Prelude.{ℕ, ◌≤◌, List, length, IfOk, OnOk};
ghost use Rattle.std.specs.Io.KnownBytes.{Appends};
ghost use Rattle.book.specs.Answers.{buffers};
ghost use Rattle.book.specs.Lent.{here, before, after};
ghost use Rattle.book.specs.Sessions as Book;
ghost use Rattle.first_state.specs.First.{first_state};
ghost use Rattle.program.specs.Program.{run_of, lines_of, printed};
ghost use Rattle.stream.specs.Lines.{bad_header_line};
ghost use Rattle.bench_run.specs.Turns.{Begins, Closes, Goes, WritesOf};

mod turns;

use act::Engine;
use first_state::MOST_PLACES;
use gathering::STOPPED;
use headers::{Header, read_header};
use program::{OUT, PIECE, Running};
use reading::read_full;
use std::io;
use std::io::{Input, Read, Write};
use std::process::ExitCode;
use turns::{closing, take_turn};

// How a run ended whose lines were all written, for whoever started the program.
#[derive(Clone, Copy)]
pub enum Ended {
    Whole,
    Cut,
    BadHeader,
}

// Reads to the end, or to a wrong tag, and writes what has been answered before more is waited for. Nothing says that an input ends: the turns are counted, to
// a number that no run comes to.
fn take_input<E: Engine, R: Read, W: Write>(
    input: &mut R,
    output: &mut W,
    start: Running,
    reals: &mut [f64],
    imags: &mut [f64],
) -> io::Result<Running>
    ensures { IfOk result (λ end. Goes (R.remaining input.old) (R.remaining input.new) (W.contents output.old) (W.contents output.new)
        (run_of start) (before reals imags) (run_of end) (after reals imags)) }
{
    let mut chunk = [0u8; PIECE];
    let mut out = [0u8; OUT];
    let mut end = start;
    for _turn in 0..u64::MAX {
        let turn = take_turn::<E, R>(input, end, &mut chunk, &mut out, reals, imags);
        output.write_all(&out[..turn.at])?;
        end = turn.next;
        if turn.got == 0 || end.feed.kept == STOPPED {
            break;
        }
    }
    Ok(end)
}

// CUT, the A lines and END. Set into its caller: there its buffer and that of the turns have one place on the stack, and else one lay above the other.
#[inline(always)]
fn write_closing<W: Write>(
    output: &mut W,
    end: Running,
    reals: &[f64],
    imags: &[f64],
) -> io::Result<()>
    requires { length reals.now ≤ 2048 }
    ensures { OnOk result ((written : List ℕ) × Closes (run_of end) (buffers reals.now imags.now) written
        × Appends (W.contents output.old) (W.contents output.new) written) }
{
    let mut out = [0u8; OUT];
    let n = closing(end, reals, imags, &mut out);
    output.write_all(&out[..n])
}

// The frames, and then the state behind them.
fn run_session<E: Engine, R: Read, W: Write>(
    input: &mut R,
    output: &mut W,
    start: Running,
    reals: &mut [f64],
    imags: &mut [f64],
) -> io::Result<Ended>
    requires { Begins (run_of start) (here reals imags) }
    ensures { OnOk result (WritesOf (lines_of (run_of start).form.session (before reals imags))
        (R.remaining input.old) (R.remaining input.new) (W.contents output.old) (W.contents output.new)) }
{
    let end = take_input::<E, R, W>(input, output, start, reals, imags)?;
    write_closing(output, end, reals, imags)?;
    if end.feed.is_cut() {
        Ok(Ended::Cut)
    } else {
        Ok(Ended::Whole)
    }
}

// From state real 1 at index 0, with the places that a state of n qubits has.
fn run_bench<E: Engine, R: Read, W: Write>(
    input: &mut R,
    output: &mut W,
    header: Header,
) -> io::Result<Ended>
    ensures { OnOk result (WritesOf (lines_of (Book.fresh header.n header.session) (first_state header.n))
        (R.remaining input.old) (R.remaining input.new) (W.contents output.old) (W.contents output.new)) }
{
    let size: usize = 1 << header.n;
    let mut reals = first_state::first_reals();
    let mut imags = [0.0; MOST_PLACES];
    run_session::<E, R, W>(
        input,
        output,
        program::start(header.n, header.session),
        &mut reals[0..size],
        &mut imags[0..size],
    )
}

// Only this line.
fn bad_header<W: Write>(output: &mut W) -> io::Result<Ended>
    ensures { OnOk result (Appends (W.contents output.old) (W.contents output.new) bad_header_line) }
{
    let mut line = [0u8; 128];
    let n = printing::put_bad_header(&mut line, 0);
    output.write_all(&line[..n])?;
    Ok(Ended::BadHeader)
}

// From a reader, which is a stored run's or standard input, to a writer; an error where not everything could be written.
pub fn run_from<E: Engine, R: Read, W: Write>(input: &mut R, output: &mut W) -> io::Result<Ended>
    ensures { OnOk result (WritesOf printed
        (R.remaining input.old) (R.remaining input.new) (W.contents output.old) (W.contents output.new)) }
{
    let mut head = [0u8; 8];
    let got = read_full(input, &mut head).unwrap_or(0);
    match read_header(&head[..got]) {
        Some(header) => run_bench::<E, R, W>(input, output, header),
        None => bad_header(output),
    }
}

// The line on standard error, which is let go where nobody takes it, and the status.
fn tell(rt: &impl Eprint, line: &str, status: u8) -> ExitCode {
    let _ = rt.eprintln(line);
    ExitCode::from(status)
}

// From standard input to standard output, which has 01's lines alone: how the run ended is told by the status, and on standard error where that is not well.
pub fn run<E: Engine, T: Input + Print + Eprint>(rt: &T) -> ExitCode {
    match run_from::<E, _, _>(&mut rt.reader(), &mut io::writer(rt)) {
        Ok(Ended::Whole) => ExitCode::SUCCESS,
        Ok(Ended::Cut) => tell(rt, "gate_bench: CUT", 4),
        Ok(Ended::BadHeader) => tell(rt, "gate_bench: BAD HEADER", 3),
        Err(_) => tell(rt, "gate_bench: not everything could be written", 1),
    }
}
