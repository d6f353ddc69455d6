// Prints the name and the listing of each file of data/: the runs worked by hand, A to I, and then 000, 001, .. as far as there are
// files. What an accepted file holds is written again, and must be that file.
#![tactic(auto)]

ghost use Rattle.std.specs.Prelude.{◌≡◌};
ghost use Rattle.runfile.specs.Read.{read_of};
ghost use Rattle.runfile.specs.Answers.{reading_of};

use arrayvec::ArrayString;
use runfile::{Contents, Layout};
use std::fmt::Write as _;
use std::io::Write;
use std::rt::Files;
use std::{fs, io};

// Whether the writer makes the file of what was read of it.
#[tactic(auto, using(runfile::proofs::Answers::layout_accepts))]
fn is_remade(file: &[u8], layout: &Layout) -> bool
    requires { reading_of (Ok layout.now) ≡ read_of file.now }
{
    let contents = Contents {
        threads: layout.threads,
        keys: layout.keys,
        counts: &layout.counts[..usize::from(layout.threads)],
        operations: &file[layout.operations_at..layout.schedule_at],
        schedule: &file[layout.schedule_at..],
    };
    let mut again = [0; runfile::KEPT];
    let written = runfile::write(contents, &mut again);
    written == Ok(file.len()) && again.starts_with(file)
}

// Nothing is printed where all is well.
fn write_again<W: Write>(out: &mut W, file: &[u8]) -> io::Result<()> {
    match runfile::read(file) {
        Ok(layout) if !is_remade(file, &layout) => writeln!(out, "not made again"),
        _ => Ok(()),
    }
}

// Whether there is such a file.
fn print_file<R: Files + Print>(rt: &R, name: &str) -> io::Result<bool> {
    let Ok(mut file) = fs::open(rt, name) else {
        return Ok(false);
    };
    let kept = listing::read_kept(&mut file)?;
    println!(rt; "{name}")?;
    let mut out = io::writer(rt);
    listing::print_run(&mut out, &kept)?;
    write_again(&mut out, &kept)?;
    Ok(true)
}

fn main(rt: HostRuntime) -> io::Result<()> {
    for letter in 'A'..='I' {
        print_file(&rt, letter.encode_utf8(&mut [0; 4]))?;
    }
    for n in 0..1000 {
        let mut name = ArrayString::<3>::new();
        // Three digits fit.
        if write!(name, "{n:03}").is_err() || !print_file(&rt, name.as_str())? {
            break;
        }
    }
    Ok(())
}
