// A run handed back: a file is read, played and told. What it must yield is defined in specs/Run.antt, and the form in numbers of an
// answer in specs/Answers.antt.
#![tactic(auto)]

ghost use Rattle.std.specs.Prelude.{◌≡◌, [], ◌*◌, ◌≤◌, length, take, Ok, OnOk};
ghost use Rattle.std.proofs.lemmas.List.Edits.{sets};
ghost use Rattle.figures.specs.Places.{log_of};
ghost use Rattle.runfile.specs.Read.{read_of};
ghost use Rattle.runfile.specs.Answers.{reading_of};
ghost use Rattle.machine.specs.Parts.{whole_of};
ghost use Rattle.places.specs.Written.{numbers_of, held_of};
ghost use Rattle.play.specs.Run.{machine_of, per_operation, fives_of, results_of, entries_of};
ghost use Rattle.play.specs.Run.{lacks, lack_number, handed_told, number_of, told_of, when};
ghost use Rattle.play.specs.Answers.{told_by};
ghost use Rattle.play.specs.Meets.{Meets};

use figures::{Machine, Record};
use machine::{Rest, rest_of};
use places::writing::{History, PER_ENTRY, held};
use runfile::{Layout, Refusal, Refused};

// Numbers per operation: answer, first step, last step, own steps, and who raised it.
pub const PER_OPERATION: usize = 5;

// What a run did: log entries, idle steps, snapshots announced.
#[derive(Clone, Copy, PartialEq, Eq, Debug)]
pub struct Played {
    pub entries: usize,
    pub idle: u32,
    pub snapshots: u32,
}

// The form in which C is handed what a run answers: number 0 where it was played, and what it did. Else the refusal's number and
// place, and every other number 0.
// stays: the C interface needs the number and the values in one struct.
#[repr(C)]
#[derive(Clone, Copy, Default)]
pub struct Told {
    pub number: u32,
    pub place: usize,
    pub entries: usize,
    pub idle: u32,
    pub snapshots: u32,
}

impl From<Result<Played, Refused>> for Told {
    ghost from_gives = { λ r told. told ≡ told_by r };

    fn from(answer: Result<Played, Refused>) -> Told {
        match answer {
            Ok(played) => Told {
                entries: played.entries,
                idle: played.idle,
                snapshots: played.snapshots,
                ..Told::default()
            },
            Err(e) => Told {
                number: e.why.number(),
                place: e.place,
                ..Told::default()
            },
        }
    }
}

fn write_results(records: &[Record], results: &mut [u32])
    requires { per_operation * length records.now ≤ length results.old }
    ensures { results.new ≡ sets results.old 0 (fives_of records.now) }
{
    // stays: a place by index, since what is written through `chunks_exact_mut` is not known once it is over
    for (i, r) in records.iter().enumerate() {
        let w = r.outcome;
        let at = PER_OPERATION * i;
        results[at..at + PER_OPERATION].copy_from_slice(&[
            w.answer, w.first, w.last, w.own, w.raiser,
        ]);
    }
}

// Refusal 11: results or log have not room for so many operations, as far as a machine holds them.
pub fn lacks_room(operations: usize, results: usize, log: usize) -> bool
    ensures { result ≡ lacks operations results log }
{
    let n = held(operations);
    results < PER_OPERATION * n || log < PER_ENTRY * n
}

// What a machine has done with so many operations; neither its counters nor its snapshots are read. Where room is lacking, nothing is
// written.
pub fn hand_back(
    m: &Rest,
    operations: usize,
    results: &mut [u32],
    log: &mut [u32],
) -> Result<Played, Refused>
    ensures value { told_by result ≡ handed_told (whole_of m.now [] []) operations (length results.old) (length log.old) }
    ensures results_after { results.new ≡ sets results.old 0
        (when (lack_number operations (length results.old) (length log.old)) (fives_of (take (held_of operations) m.now.records))) }
    ensures log_after { log.new ≡ sets log.old 0
        (when (lack_number operations (length results.old) (length log.old)) (numbers_of (log_of (whole_of m.now [] []) (held_of operations)))) }
{
    let n = held(operations);
    if results.len() < PER_OPERATION * n {
        return Err(Refusal::TooSmall.at(0));
    }
    let history = History {
        records: &m.records,
        traces: &m.traces,
    };
    let entries = history
        .write_log(operations, log)
        .ok_or(Refusal::TooSmall.at(0))?;
    write_results(&m.records[..n], results);
    Ok(Played {
        entries,
        idle: m.idle,
        snapshots: u32::from(m.current.0),
    })
}

// The machine after the run of a file that reading accepted.
fn machine_after(file: &[u8], layout: Layout) -> Machine
    requires { reading_of (Ok layout) ≡ read_of file.now }
    ensures { result ≡ machine_of file.now }
{
    let operations = &file[layout.operations_at..layout.schedule_at];
    let start = Machine::start(layout.threads, layout.keys, layout.counts, operations);
    machine::play(start, &file[layout.schedule_at..])
}

// A file that reading accepted and that there is room for, played and handed back.
// stays: not inlined into `run`, since a function clears all of its frame at entry, and a call that is refused would pay for the machine
#[inline(never)]
fn play_and_hand_back(
    file: &[u8],
    layout: Layout,
    results: &mut [u32],
    log: &mut [u32],
) -> Result<Played, Refused>
    requires { reading_of (Ok layout) ≡ read_of file.now }
    ensures value { told_by result ≡ told_of file.now (length results.old) (length log.old) }
    ensures results_after { results.new ≡ sets results.old 0
        (when (number_of file.now (length results.old) (length log.old)) (results_of file.now)) }
    ensures log_after { log.new ≡ sets log.old 0
        (when (number_of file.now (length results.old) (length log.old)) (entries_of file.now)) }
    ensures meets { OnOk result (Meets file.now) }
{
    hand_back(
        &rest_of(machine_after(file, layout)),
        layout.operations,
        results,
        log,
    )
}

// Reads a file, plays it and hands it back. A refusal leaves both buffers as they were. What is handed back meets demand 3, and its
// log is in order.
pub fn run(file: &[u8], results: &mut [u32], log: &mut [u32]) -> Result<Played, Refused>
    ensures value { told_by result ≡ told_of file.now (length results.old) (length log.old) }
    ensures results_after { results.new ≡ sets results.old 0
        (when (number_of file.now (length results.old) (length log.old)) (results_of file.now)) }
    ensures log_after { log.new ≡ sets log.old 0
        (when (number_of file.now (length results.old) (length log.old)) (entries_of file.now)) }
    ensures meets { OnOk result (Meets file.now) }
{
    let layout = runfile::read(file)?;
    if lacks_room(layout.operations, results.len(), log.len()) {
        return Err(Refusal::TooSmall.at(0));
    }
    play_and_hand_back(file, layout, results, log)
}
