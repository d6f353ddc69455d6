// The export of the crate `lent`: it calls the function of its name there and states its clauses again.
// stays: the number in front, and clauses that stand in `lent` too, since the C interface has them so.
#![tactic(auto)]

ghost use Rattle.std.specs.Prelude.{◌≡◌, length};
ghost use Rattle.std.proofs.lemmas.List.Edits.{sets};
ghost use Rattle.play.specs.Run.{results_of, entries_of, when};
ghost use Rattle.play.specs.Meets.{Meets};
ghost use Rattle.lent.specs.Runs.{lent_number, lent_told, records_of};

use figures::Snapshot;
use play::Told;

#[unsafe(no_mangle)]
pub extern "C" fn pszenorad_run_lent(
    file: &[u8],
    results: &mut [u32],
    log: &mut [u32],
    table: &mut [Snapshot],
) -> Told
    ensures value { result ≡ lent_told file.now (length results.old) (length log.old) (length table.old) }
    ensures results_after { results.new ≡ sets results.old 0 (when (lent_number file.now (length results.old) (length log.old) (length table.old)) (results_of file.now)) }
    ensures log_after { log.new ≡ sets log.old 0 (when (lent_number file.now (length results.old) (length log.old) (length table.old)) (entries_of file.now)) }
    ensures table_after { table.new ≡ sets table.old 0 (when (lent_number file.now (length results.old) (length log.old) (length table.old)) (records_of file.now)) }
    ensures meets { result.number ≡ 0 → Meets file.now }
{
    lent::pszenorad_run_lent(file, results, log, table)
}
