// The state of a run: figure 4's classes, the slots, threads and operation records of figure 3, and what the log will need.
// What each access does to it is defined in specs/, one file per figure; the code is in the crates `calculator` (figures 4 to 6),
// `accesses` (figure 3) and `machine`.
#![tactic(auto)]

ghost use Rattle.std.specs.Prelude.{◌≡◌, ◌%◌, replicate};
ghost use Rattle.std.proofs.lemmas.List.Edits.{sets};
ghost use Rattle.figures.specs.declared.Point.TheVariants.{Idle};
ghost use Rattle.figures.specs.Limits.{most_operations};
ghost use Rattle.figures.specs.Figure4.{block_of};
ghost use Rattle.figures.specs.Codec.{call_of, key_of, is_size};
ghost use Rattle.figures.specs.Step.{no_record};
ghost use Rattle.figures.specs.Start.{calculator_start, owner_of, records_of, locals_of, start_of};

use terms::{Note, OpId, SnapshotId, Target, ThreadId};

// The limits as lengths: threads, keys, and records of snapshots, one for each operation and record 0.
// stays: `as`, since no `from` may be called in a constant's value.
pub const THREADS: usize = Machine::THREADS as usize;

pub const KEYS: usize = Machine::KEYS as usize;

pub const SNAPSHOTS: usize = Machine::OPERATIONS + 1;

// ---- Figures 4 to 6: the calculator.

// INSERT and DELETE (figure 3, line 1).
#[derive(Clone, Copy, Debug, PartialEq, Eq)]
pub enum Kind {
    Insertion,
    Deletion,
}

// One counter, or one cell of a snapshot: whose, and of which kind.
#[derive(Clone, Copy, Debug, PartialEq, Eq)]
pub struct Cell {
    pub thread: ThreadId,
    pub kind: Kind,
}

// An insertion number and a deletion number, of one thread. Laid out as C lays it out, as a snapshot is: a caller may lend these.
#[repr(C)]
#[derive(Clone, Copy, Debug, PartialEq, Eq, Default)]
pub struct Counts {
    pub insertions: u32,
    pub deletions: u32,
}

// CountersSnapshot (figure 4, lines 48 to 51).
// stays: INVALID in a cell or the size is in the lent table (C), and `behind`, `collect_set`, `fix_size` of Figure6 compare with it.
#[repr(C)]
#[derive(Clone, Copy, Default)]
pub struct Snapshot {
    pub cells: [Counts; THREADS],
    pub collecting: bool,
    pub size: u32,
}

// What the log needs of a snapshot: the steps of its announcement, its closing and its fixing (0: not yet), and the values that its
// winner read for its sum.
// stays: 0 for not yet is a number in `TraceIn` (limited_run), `Sums` (sums_run), and `size_stands`, `missed` (agrees_run).
#[derive(Clone, Copy, Debug, Default)]
pub struct Trace {
    pub announced: u32,
    pub closed: u32,
    pub fixed: u32,
    pub seen: [Counts; THREADS],
}

// SizeCalculator (figure 4, lines 45 to 47), with every snapshot announced so far.
// stays: two lists beside one another, since a caller may lend the snapshots, laid out for C, and never the traces.
#[derive(Clone, Copy)]
pub struct Calculator {
    pub counters: [Counts; THREADS],
    pub current: SnapshotId,
    pub snapshots: [Snapshot; SNAPSHOTS],
    pub traces: [Trace; SNAPSHOTS],
}

// What one access of the calculator can see: a counter, which snapshot is current, and of a snapshot its flag, a cell, its size.
// stays: all five for one number heard, since every access of Figure5 and Figure6 is defined over a `Sight`.
#[derive(Clone, Copy)]
pub struct Sight {
    pub count: u32,
    pub current: SnapshotId,
    pub collecting: bool,
    pub cell: u32,
    pub size: u32,
}

// The accesses of updateMetadata (figure 5, lines 75 to 83) and forward (figure 6, lines 95 to 103). Those after the exchange of the
// counter know whether this call raised it.
#[derive(Clone, Copy)]
pub enum UpdatePoint {
    ReadCount,
    RaiseCount,
    ReadCurrent(bool),
    ReadFlag(bool, SnapshotId),
    ReadAgain(bool, SnapshotId),
    ReadCell(bool, SnapshotId),
    Forward(bool, SnapshotId, u32),
}

// What such an access changes: nothing, the counter, or the snapshot's cell.
#[derive(Clone, Copy)]
pub enum UpdateDeed {
    Reads,
    Raises,
    Forwards(SnapshotId),
}

// Where an update goes on, or what it reports at its end: whether this call raised the counter.
// stays: of ControlFlow's shape, as `SizeNext` and `Next` are. Continue and Break(true) say less than Then and Done(raised), neither
// is a failure, no caller has a use for `?`, and Figure3, Figure5 and Figure6 are read by these words.
#[derive(Clone, Copy)]
pub enum UpdateNext {
    Then(UpdatePoint),
    Done(bool),
}

#[derive(Clone, Copy)]
pub struct UpdateMove {
    pub next: UpdateNext,
    pub deed: UpdateDeed,
}

// The accesses of compute (figure 5, lines 57 to 74; figure 6, lines 92 to 94 and 104 to 112).
#[derive(Clone, Copy)]
pub enum SizePoint {
    FindCurrent,
    FindFlag(SnapshotId),
    Announce(SnapshotId),
    CollectCount(SnapshotId, Cell),
    CollectCell(SnapshotId, Cell, u32),
    CollectSet(SnapshotId, Cell, u32),
    LowerFlag(SnapshotId),
    SumCell(SnapshotId, Cell),
    FixSize(SnapshotId),
}

// What such an access changes. A cell read for the sum is kept by the thread; a size that was fixed by another is shared.
#[derive(Clone, Copy)]
pub enum SizeDeed {
    Looks,
    Announces,
    Collects(SnapshotId, Cell, u32),
    Lowers(SnapshotId),
    Keeps(Cell, u32),
    Fixes(SnapshotId, u32),
    Shares(SnapshotId),
}

#[derive(Clone, Copy)]
pub enum SizeNext {
    Goes(SizePoint),
    Sized(u32),
}

#[derive(Clone, Copy)]
pub struct SizeMove {
    pub next: SizeNext,
    pub deed: SizeDeed,
}

// ---- Figure 3: the set over it.

// A node's inserter, target and inserting operation; or a mark's deleter, target and deleting operation.
// The operation's number is the identity that an exchange compares.
#[derive(Clone, Copy, Debug)]
pub struct Node {
    pub note: Note,
    pub op: OpId,
}

#[derive(Clone, Copy, Debug, Default)]
pub enum Content {
    #[default]
    Empty,
    Live(Node),
    Marked(Node, Node),
}

// One slot per key.
#[derive(Clone, Copy, Debug, Default)]
pub struct Slot {
    pub content: Content,
}

// The kinds of operations, as the run file numbers them: 0 to 3.
#[derive(Clone, Copy, Debug, PartialEq, Eq, Default)]
pub enum Call {
    #[default]
    Insert,
    Delete,
    Contains,
    Size,
}

// The update whose metadata is brought up to date: a node's insertion, or a mark's deletion.
#[derive(Clone, Copy)]
pub struct Update {
    pub kind: Kind,
    pub node: Node,
}

// What follows once the metadata is up to date.
// stays: an answer is 0, 1 or a count here and in `Next`, as `Outcome` hands it back and `AfterIn` (limited_run) bounds it.
#[derive(Clone, Copy)]
pub enum After {
    Answer(u32),
    ToMark(Node),
    ToHelpUnlink(Node, Node),
    ToUnlink(Node, Node),
}

// Where a thread stands: the access that it makes next. Idle: between operations, or with none left.
#[derive(Clone, Copy)]
pub enum Point {
    Idle,
    ReadSlot,
    Updating(UpdatePoint, Update, After),
    CountInsertions,
    Link(Target),
    HelpUnlink(Node, Node),
    CountDeletions(Node),
    Mark(Node, Target),
    Unlink(Node, Node),
    Sizing(SizePoint),
}

// What an access changes of the memory, or tells the log.
#[derive(Clone, Copy)]
pub enum Deed {
    Rests,
    Finds(Content),
    Links(Node),
    Marks(Node, Node),
    Unlinks,
    Updates(UpdateDeed, Update),
    Sizes(SizeDeed),
}

#[derive(Clone, Copy)]
pub enum Next {
    To(Point),
    Returns(u32),
}

#[derive(Clone, Copy)]
pub struct Move {
    pub next: Next,
    pub deed: Deed,
}

// A thread: where it stands, its current operation, where its operations end, and the values that it has read for a sum.
#[derive(Clone, Copy)]
pub struct Local {
    pub point: Point,
    pub op: OpId,
    pub end: OpId,
    pub seen: [Counts; THREADS],
}

// What an operation asks, and for which thread.
// stays: a size has a key too, 0, since `Asked` is what a byte asks by `call_of` and `key_of` (coded).
#[derive(Clone, Copy, Debug, PartialEq, Eq, Default)]
pub struct Asked {
    pub thread: ThreadId,
    pub call: Call,
    pub key: u8,
}

// The five numbers that are handed back: answer, first step, last step, own steps, and the thread that raised the update's counter
// (INVALID for anything but a raised update).
// stays: the numbers that C is handed; `OutcomeIn` (limited_run), `RaiserIs` (raisers_run) and `course_at` (demand_run) read them.
#[derive(Clone, Copy, Debug, PartialEq, Eq, Default)]
pub struct Outcome {
    pub answer: u32,
    pub first: u32,
    pub last: u32,
    pub own: u32,
    pub raiser: u32,
}

// The last slot read: its step, and what it found.
// stays: 0 for none read is a number in `LookIn` (limited_run) and `finder_stands` (agrees_run).
#[derive(Clone, Copy, Debug, Default)]
pub struct Look {
    pub read: u32,
    pub found: Content,
}

// An update's target, the steps of its slot exchange and of its raising (0: not yet), and the snapshot that was being
// collected at its raising (0: none).
// stays: 0 for not yet is a number in `ChangeIn` (limited_run), `was_raised` (demand_run) and `missed` (agrees_run).
#[derive(Clone, Copy, Debug, PartialEq, Eq, Default)]
pub struct Change {
    pub target: Target,
    pub exchanged: u32,
    pub raised: u32,
    pub window: SnapshotId,
}

// An operation: what is asked, what is handed back, and what the log needs; `snapshot` is the one that a returned size took
// its answer from.
// stays: snapshot 0 for none is a number in `RecordIn` (limited_run) and `size_stands` (agrees_run).
#[derive(Clone, Copy, Debug, Default)]
pub struct Record {
    pub asked: Asked,
    pub outcome: Outcome,
    pub look: Look,
    pub change: Change,
    pub snapshot: SnapshotId,
}

// A run's whole state after `clock` steps.
#[derive(Clone, Copy)]
pub struct Machine {
    pub threads: u8,
    pub keys: u8,
    pub clock: u32,
    pub idle: u32,
    pub calculator: Calculator,
    pub slots: [Slot; KEYS],
    pub locals: [Local; THREADS],
    pub records: [Record; Machine::OPERATIONS],
}

// ---- The operation codec: an operation byte is kind × 64 + key.

impl From<u8> for Call {
    ghost from_gives = { λ b call. call ≡ call_of b };

    fn from(b: u8) -> Call {
        match b / 64 {
            0 => Call::Insert,
            1 => Call::Delete,
            2 => Call::Contains,
            _ => Call::Size,
        }
    }
}

impl Call {
    pub fn is_size(self) -> bool
        ensures { result ≡ is_size self }
    {
        matches!(self, Call::Size)
    }
}

pub fn key_of(b: u8) -> u8
    ensures { result ≡ key_of b }
{
    b % 64
}

// What is read where there is no operation of that number.
pub fn no_record() -> Record
    ensures { result ≡ no_record }
{
    Record::default()
}

// ---- Memory at the start.

// An operation that has not begun.
fn unbegun(thread: u8, b: u8) -> Record
    ensures { result ≡ Rattle.figures.specs.Start.unbegun thread b }
{
    Record {
        asked: Asked {
            thread: ThreadId(thread),
            call: Call::from(b),
            key: key_of(b),
        },
        outcome: Outcome {
            answer: Machine::INVALID,
            raiser: Machine::INVALID,
            ..Outcome::default()
        },
        ..no_record()
    }
}

// The thread that has operation o: each thread's operations follow those of the thread before.
// stays: 8 where there is no such thread, since `owner_of` of specs/Start.antt is 8 there: for an operation beyond the counts' sum.
fn owner_of(counts: [u16; THREADS], o: usize) -> u8
    ensures { result ≡ owner_of counts o }
{
    let mut left = o;
    for (thread, count) in counts.iter().enumerate() {
        let count = usize::from(*count);
        if left < count {
            // stays: `as`, here and in `local_of`, since no `From` narrows; numbers zipped to the counts leave the loop no index to speak of
            return thread as u8;
        }
        left -= count;
    }
    Machine::THREADS
}

fn records_of(counts: [u16; THREADS], operations: &[u8]) -> [Record; Machine::OPERATIONS]
    ensures { result ≡ sets (replicate most_operations (Rattle.figures.specs.Start.unbegun 0 0)) 0 (records_of counts 0 operations.now) }
{
    // stays: bytes by number, here and in `locals_of`, since nothing is known of what is written through an adapter of `iter_mut`
    let mut records = [unbegun(0, 0); Machine::OPERATIONS];
    for (o, record) in records.iter_mut().enumerate() {
        if let Some(b) = operations.get(o) {
            *record = unbegun(owner_of(counts, o), *b);
        }
    }
    records
}

// A thread between operations, before its first.
fn local_of(first: usize, end: usize) -> Local
    ensures { result ≡ record { point = Idle; op = record { 0 = first % 256 }; end = record { 0 = end % 256 }; seen = block_of 0 } }
{
    Local {
        point: Point::Idle,
        op: OpId((first % 256) as u8),
        end: OpId((end % 256) as u8),
        seen: [Counts::default(); THREADS],
    }
}

fn locals_of(counts: [u16; THREADS]) -> [Local; THREADS]
    ensures { result ≡ locals_of 0 counts }
{
    let mut locals = [local_of(0, 0); THREADS];
    let mut first = 0;
    for (t, count) in counts.iter().enumerate() {
        let end = first + usize::from(*count);
        locals[t] = local_of(first, end);
        first = end;
    }
    locals
}

// Counters 0; record 0 is announced and not collecting, all else INVALID.
fn calculator_start() -> Calculator
    ensures { result ≡ calculator_start }
{
    let invalid = Counts {
        insertions: Machine::INVALID,
        deletions: Machine::INVALID,
    };
    let snapshot = Snapshot {
        cells: [invalid; THREADS],
        collecting: false,
        size: Machine::INVALID,
    };
    Calculator {
        counters: [Counts::default(); THREADS],
        current: SnapshotId(0),
        snapshots: [snapshot; SNAPSHOTS],
        traces: [Trace::default(); SNAPSHOTS],
    }
}

impl Machine {
    // The limits of document 01.
    pub const THREADS: u8 = 8;

    pub const KEYS: u8 = 16;

    pub const OPERATIONS: usize = 64;

    pub const STEPS: usize = 4096;
    // A cell or a size that is not there yet; an answer that is not given yet; a raiser where there is none.
    pub const INVALID: u32 = 4294967295;

    // The state before the first step, of a run of so many threads and keys: one count per thread, and the operation bytes.
    // stays: four arguments, since `start_of` is defined over them.
    pub fn start(threads: u8, keys: u8, counts: [u16; THREADS], operations: &[u8]) -> Machine
        ensures { result ≡ start_of threads keys counts operations.now }
    {
        Machine {
            threads,
            keys,
            clock: 0,
            idle: 0,
            calculator: calculator_start(),
            slots: [Slot::default(); KEYS],
            locals: locals_of(counts),
            records: records_of(counts, operations),
        }
    }
}
