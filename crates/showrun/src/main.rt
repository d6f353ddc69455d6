// Prints the listing of the run file on standard input, or its refusal.
#![tactic(auto)]

use std::io;

fn main(rt: HostRuntime) -> io::Result<()> {
    let mut input = rt.reader();
    let kept = listing::read_kept(&mut input)?;
    // The rest is read too, so that whoever writes the input is not stopped by a closed pipe.
    if kept.len() == runfile::KEPT {
        io::copy(&mut input, &mut io::sink())?;
    }
    listing::print_run(&mut io::writer(&rt), &kept)
}
