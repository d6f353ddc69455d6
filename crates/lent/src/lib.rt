// A run over a table of snapshots that the caller lends. A step and a schedule over such a table, and over counters that are lent too,
// are functions of the crate `machine`.
#![tactic(auto)]

ghost use Rattle.std.specs.Prelude.{◌≡◌, length, OnOk, IfOk, IfErr};
ghost use Rattle.std.proofs.lemmas.List.Edits.{sets};
ghost use Rattle.machine.specs.Parts.{rest_of};
ghost use Rattle.play.specs.Answers.{told_by};
ghost use Rattle.play.specs.Run.{results_of, entries_of, when};
ghost use Rattle.play.specs.Meets.{Meets};
ghost use Rattle.lent.specs.Table.{sizes_of};
ghost use Rattle.lent.specs.Runs.{lent_number, lent_told, records_of, Opens, Refuses, ran_over};

use calculator::exchange::Exchange;
use calculator::figure4::block_of;
use figures::{Call, Machine, Snapshot};
use lending::exchange;
use machine::{Rest, rest_of};
pub use machine::{play_lent, step_lent};
use play::{Played, Told, hand_back, lacks_room};
use runfile::{Layout, Refusal, Refused};
use terms::SnapshotId;

// A whole run over a lent table, from the rest of a machine before its first step. Record 0 is announced and not collecting before that
// step, and all else of it INVALID; the counters are this function's own.
pub fn run_over(table: &mut [Snapshot], m: &mut Rest, schedule: &[u8])
    ensures rest { m.new ≡ rest_of (ran_over m.old table.old schedule.now) }
    ensures table { table.new ≡ (ran_over m.old table.old schedule.now).calculator.snapshots }
{
    exchange(table, SnapshotId(0), Exchange::Anew(false));
    let mut block = block_of(0);
    play_lent(table, &mut block, m, schedule);
}

// How many of these operation bytes are sizes.
#[tactic(auto, using(crate::proofs::Openings::sizes_counted))]
fn sizes_in(operations: &[u8]) -> usize
    ensures { result ≡ sizes_of operations.now }
{
    operations
        .iter()
        .filter(|b| Call::from(**b).is_size())
        .count()
}

// All that is decided before the first step: the file, as reading tells it, where nothing refuses it. The table needs one record more
// than there are sizes.
fn opening(file: &[u8], results: usize, log: usize, table: usize) -> Result<Layout, Refused>
    ensures opened { IfOk result (Opens file.now results log table) }
    ensures refused { IfErr result (Refuses file.now results log table) }
{
    let layout = runfile::read(file)?;
    let operations = &file[layout.operations_at..layout.schedule_at];
    if lacks_room(layout.operations, results, log) || table <= sizes_in(operations) {
        return Err(Refusal::TooSmall.at(0));
    }
    Ok(layout)
}

// A file that nothing refuses, played over the lent table and handed back.
// stays: not inlined into `run`, since a function clears all of its frame at entry, and a call that is refused would pay for the machine
#[inline(never)]
fn play_and_hand_back(
    file: &[u8],
    layout: Layout,
    results: &mut [u32],
    log: &mut [u32],
    table: &mut [Snapshot],
) -> Result<Played, Refused>
    requires { Opens file.now (length results.old) (length log.old) (length table.old) layout }
    ensures value { told_by result ≡ lent_told file.now (length results.old) (length log.old) (length table.old) }
    ensures results_after { results.new ≡ sets results.old 0 (when (lent_number file.now (length results.old) (length log.old) (length table.old)) (results_of file.now)) }
    ensures log_after { log.new ≡ sets log.old 0 (when (lent_number file.now (length results.old) (length log.old) (length table.old)) (entries_of file.now)) }
    ensures table_after { table.new ≡ sets table.old 0 (when (lent_number file.now (length results.old) (length log.old) (length table.old)) (records_of file.now)) }
    ensures meets { OnOk result (Meets file.now) }
{
    let operations = &file[layout.operations_at..layout.schedule_at];
    let start = Machine::start(layout.threads, layout.keys, layout.counts, operations);
    let mut rest = rest_of(start);
    run_over(table, &mut rest, &file[layout.schedule_at..]);
    hand_back(&rest, layout.operations, results, log)
}

// Reads a file, plays it over the lent table and hands it back. After a run the table holds the announced records, and the others as
// lent; a refusal touches neither results nor log nor table. What is handed back meets demand 3.
pub fn run(
    file: &[u8],
    results: &mut [u32],
    log: &mut [u32],
    table: &mut [Snapshot],
) -> Result<Played, Refused>
    ensures value { told_by result ≡ lent_told file.now (length results.old) (length log.old) (length table.old) }
    ensures results_after { results.new ≡ sets results.old 0 (when (lent_number file.now (length results.old) (length log.old) (length table.old)) (results_of file.now)) }
    ensures log_after { log.new ≡ sets log.old 0 (when (lent_number file.now (length results.old) (length log.old) (length table.old)) (entries_of file.now)) }
    ensures table_after { table.new ≡ sets table.old 0 (when (lent_number file.now (length results.old) (length log.old) (length table.old)) (records_of file.now)) }
    ensures meets { OnOk result (Meets file.now) }
{
    let layout = opening(file, results.len(), log.len(), table.len())?;
    play_and_hand_back(file, layout, results, log, table)
}

// The same, with the answer in the form in which C is handed it.
// stays: the C interface needs the number in front, and the clauses stated again.
pub fn pszenorad_run_lent(
    file: &[u8],
    results: &mut [u32],
    log: &mut [u32],
    table: &mut [Snapshot],
) -> Told
    ensures value { result ≡ lent_told file.now (length results.old) (length log.old) (length table.old) }
    ensures results_after { results.new ≡ sets results.old 0 (when (lent_number file.now (length results.old) (length log.old) (length table.old)) (results_of file.now)) }
    ensures log_after { log.new ≡ sets log.old 0 (when (lent_number file.now (length results.old) (length log.old) (length table.old)) (entries_of file.now)) }
    ensures table_after { table.new ≡ sets table.old 0 (when (lent_number file.now (length results.old) (length log.old) (length table.old)) (records_of file.now)) }
    ensures meets { result.number ≡ 0 → Meets file.now }
{
    Told::from(run(file, results, log, table))
}
