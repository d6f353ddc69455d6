// The listing of a run, as document 01 shows it. What it prints is decided in the crates `play` and `runfile`: here it is put
// into words, and written to `out`.
#![tactic(auto)]

ghost use Rattle.std.specs.Prelude.{◌≡◌, ◌+◌, ◌*◌, ◌≤◌, length, take, Ok, Err, IfOk, IfErr, IfSome};
ghost use Rattle.figures.specs.Limits.{most_operations};
ghost use Rattle.runfile.specs.Contents.{longest};
ghost use Rattle.runfile.specs.Read.{read_of};
ghost use Rattle.runfile.specs.Answers.{reading_of};
ghost use Rattle.places.specs.Written.{per_entry};
ghost use Rattle.play.specs.Run.{operations_of, per_operation, ran};
ghost use Rattle.play.specs.Answers.{told_by};

use arrayvec::ArrayVec;
use figures::{Call, Machine};
use places::writing::PER_ENTRY;
use play::{PER_OPERATION, Played};
use runfile::{Layout, Refused};
use std::fmt::{Display, Formatter};
use std::io::{Read, Write};
use std::{fmt, io};

// ---- Parts of a line, each with the words before it, so that words and number are written as they come.

// What an operation byte asks; a size has no key.
#[derive(Clone, Copy)]
struct Request {
    call: Call,
    key: u8,
}

impl From<u8> for Request {
    fn from(byte: u8) -> Self {
        Request {
            call: Call::from(byte),
            key: figures::key_of(byte),
        }
    }
}

impl Display for Request {
    fn fmt<W: fmt::Write>(&self, f: &mut Formatter<W>) -> fmt::Result {
        let key = self.key;
        match self.call {
            Call::Insert => write!(f, " insert {key}"),
            Call::Delete => write!(f, " delete {key}"),
            Call::Contains => write!(f, " contains {key}"),
            Call::Size => write!(f, " size -"),
        }
    }
}

#[derive(Clone, Copy)]
enum Answer {
    Unfinished,
    Held(bool),
    Counted(u32),
}

impl Answer {
    // The answer to `call`, as it is handed back; unfinished where there is no last step.
    fn new(call: Call, answer: u32, last: u32) -> Self {
        match (call, last) {
            (_, 0) => Answer::Unfinished,
            (Call::Size, _) => Answer::Counted(answer),
            _ => Answer::Held(answer != 0),
        }
    }
}

impl Display for Answer {
    fn fmt<W: fmt::Write>(&self, f: &mut Formatter<W>) -> fmt::Result {
        match self {
            Answer::Unfinished => write!(f, " answer unfinished"),
            Answer::Held(true) => write!(f, " answer true"),
            Answer::Held(false) => write!(f, " answer false"),
            Answer::Counted(count) => write!(f, " answer {count}"),
        }
    }
}

// The thread that raised an update; none for anything else.
#[derive(Clone, Copy)]
struct Raiser(Option<u32>);

impl From<u32> for Raiser {
    fn from(raiser: u32) -> Self {
        match raiser {
            Machine::INVALID => Raiser(None),
            thread => Raiser(Some(thread)),
        }
    }
}

impl Display for Raiser {
    fn fmt<W: fmt::Write>(&self, f: &mut Formatter<W>) -> fmt::Result {
        match self.0 {
            Some(thread) => write!(f, " raisedby {thread}"),
            None => write!(f, " raisedby -"),
        }
    }
}

// The operation bytes of a file that reading accepted.
fn operations_of<'a>(file: &'a [u8], layout: &Layout) -> &'a [u8]
    requires { reading_of (Ok layout.now) ≡ read_of file.now }
    ensures { result.now ≡ operations_of file.now }
{
    &file[layout.operations_at..layout.schedule_at]
}

// One operation's line, with its numbers.
fn print_operation<W: Write>(
    out: &mut W,
    o: usize,
    thread: usize,
    byte: u8,
    numbers: [u32; PER_OPERATION],
) -> io::Result<()> {
    let [answer, first, last, own, raiser] = numbers;
    let asked = Request::from(byte);
    let answer = Answer::new(asked.call, answer, last);
    let raiser = Raiser::from(raiser);
    writeln!(
        out,
        "op {o} thread {thread}{asked}{answer} first {first} last {last} own {own}{raiser}"
    )
}

// A line for each operation byte: each thread's operations follow those of the thread before.
fn print_operations<W: Write>(
    out: &mut W,
    file: &[u8],
    layout: &Layout,
    results: &[u32],
) -> io::Result<()>
    requires { (reading_of (Ok layout.now) ≡ read_of file.now) × (per_operation * most_operations ≤ length results.now) }
{
    let operations = operations_of(file, layout);
    let (results, _) = results.as_chunks::<PER_OPERATION>();
    let mut first = 0;
    for (thread, count) in layout.counts.iter().enumerate() {
        let end = first + usize::from(*count);
        for o in first..end {
            print_operation(out, o, thread, operations[o], results[o])?;
        }
        first = end;
    }
    Ok(())
}

// What the file holds, and what its run hands back. There is room for every run, so that reading alone refuses.
fn read_and_play(
    file: &[u8],
    results: &mut [u32],
    log: &mut [u32],
) -> Result<(Layout, Played), Refused>
    requires { (per_operation * most_operations ≤ length results.old) × (per_entry * most_operations ≤ length log.old) }
    ensures refused { IfErr result (λ e. reading_of (Err e) ≡ read_of file.now) }
    ensures read { IfOk result (λ both. reading_of (Ok both.0) ≡ read_of file.now) }
    ensures played { IfOk result (λ both. told_by (Ok both.1) ≡ ran file.now) }
{
    Ok((runfile::read(file)?, play::run(file, results, log)?))
}

// Runs the file and prints all that is handed back, or the refusal. There is room for every run: number 11 is never printed.
pub fn print_run<W: Write>(out: &mut W, file: &[u8]) -> io::Result<()> {
    let mut results = [0; PER_OPERATION * Machine::OPERATIONS];
    let mut log = [0; PER_ENTRY * Machine::OPERATIONS];
    match read_and_play(file, &mut results, &mut log) {
        Err(refused) => writeln!(out, "{refused}"),
        Ok((layout, played)) => {
            writeln!(
                out,
                "run threads {} keys {} operations {} steps {} idle {} snapshots {}",
                layout.threads,
                layout.keys,
                layout.operations,
                layout.steps,
                played.idle,
                played.snapshots
            )?;
            print_operations(out, file, &layout, &results)?;
            let (log, _) = log[..PER_ENTRY * played.entries].as_chunks::<PER_ENTRY>();
            for [o, step] in log {
                writeln!(out, "log {o} at {step}")?;
            }
            Ok(())
        }
    }
}

// The start of an input, one byte more than any accepted file has: reading tells of these bytes what it tells of the whole
// (`kept_same` of the crate `runfile`). It takes no memory but its own.
pub fn read_kept<R: Read>(input: &mut R) -> io::Result<ArrayVec<u8, { runfile::KEPT }>>
    ensures start { IfOk result (λ kept. IfSome (R.remaining input.old) (λ whole. kept.items ≡ take (longest + 1) whole)) }
    ensures same { IfOk result (λ kept. IfSome (R.remaining input.old) (λ whole. read_of kept.items ≡ read_of whole)) }
    ensures few { IfOk result (λ kept. length kept.items ≤ longest + 1) }
{
    let mut kept = ArrayVec::new();
    // stays: `as`, since neither Rust nor the kit has `u64::from(usize)`
    io::copy(&mut input.take(runfile::KEPT as u64), &mut kept)?;
    prove!(kept.len() <= runfile::KEPT);
    Ok(kept)
}

#[cfg(test)]
mod tests {
    use super::*;
    use std::test::Fail;

    #[test]
    fn keeps_a_short_input_whole(rt: HostRuntime) -> Result<(), Fail> {
        let kept = read_kept(&mut "a short one".as_bytes())?;
        assert_eq!(rt; kept.as_slice(), "a short one".as_bytes());
        Ok(())
    }

    #[test]
    fn keeps_the_start_of_a_long_input(rt: HostRuntime) -> Result<(), Fail> {
        let kept = read_kept(&mut io::repeat(7))?;
        assert_eq!(rt; kept.len(), 4199);
        assert!(rt; kept.iter().all(|byte| *byte == 7));
        Ok(())
    }
}
