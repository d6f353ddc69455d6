// The exports of the crate `face`: each calls the function of its name there and states its clauses again.
// stays: numbers in front, and clauses that stand in `face` too, since the C interface has them so.
#![tactic(auto)]

ghost use Rattle.std.specs.Prelude.{◌≡◌, length};
ghost use Rattle.std.proofs.lemmas.List.Edits.{sets};
ghost use Rattle.runfile.specs.Read.{read_of};
ghost use Rattle.runfile.specs.Write.{write_of, written_of};
ghost use Rattle.play.specs.Run.{told_of, number_of, when, results_of, entries_of};

use play::Told;
use runfile::{Reading, Writing};

#[unsafe(no_mangle)]
pub extern "C" fn pszenorad_read(file: &[u8]) -> Reading
    ensures { result ≡ read_of file.now }
{
    face::pszenorad_read(file)
}

// stays: the lists one by one, and numbers in place of a Result, since the C interface has them so
#[unsafe(no_mangle)]
pub extern "C" fn pszenorad_write(
    threads: u8,
    keys: u8,
    counts: &[u16],
    operations: &[u8],
    schedule: &[u8],
    out: &mut [u8],
) -> Writing
    ensures value { result ≡ write_of threads keys counts.now operations.now schedule.now (length out.old) }
    ensures out_after { out.new ≡ sets out.old 0
        (written_of threads keys counts.now operations.now schedule.now (length out.old)) }
{
    face::pszenorad_write(threads, keys, counts, operations, schedule, out)
}

#[unsafe(no_mangle)]
pub extern "C" fn pszenorad_run(file: &[u8], results: &mut [u32], log: &mut [u32]) -> Told
    ensures value { result ≡ told_of file.now (length results.old) (length log.old) }
    ensures results_after { results.new ≡ sets results.old 0
        (when (number_of file.now (length results.old) (length log.old)) (results_of file.now)) }
    ensures log_after { log.new ≡ sets log.old 0
        (when (number_of file.now (length results.old) (length log.old)) (entries_of file.now)) }
{
    face::pszenorad_run(file, results, log)
}
