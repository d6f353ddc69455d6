// The run file (document 01): reading it and writing it, by one layout.
#![tactic(auto)]

ghost use Rattle.std.specs.Prelude.{◌≡◌, [], ◌∷◌, ◌++◌, ◌+◌, ◌-◌, ◌*◌, ◌/◌, ◌%◌, ◌^◌, ◌≤◌, ◌<◌, length, replicate, drop, Some, IfOk, codes};
ghost use Rattle.runfile.specs.declared.TheConstants.{HEADER, ENTRY};
ghost use Rattle.std.specs.Fmt.{decimal};
ghost use Rattle.std.specs.Simd.{first_chunks};
ghost use Rattle.std.proofs.lemmas.List.Edits.{sets};
ghost use Rattle.figures.specs.Limits.{most_threads, most_operations, most_steps};
ghost use Rattle.figures.specs.Codec.{allowed, fault_of};
ghost use Rattle.runfile.specs.Refusals.{number_of, fault_row};
ghost use Rattle.runfile.specs.Rows.{outside, Passes, sum_to};
ghost use Rattle.runfile.specs.Layout.{word_at, entry_at, body_at, count_of, entries, file_of};
ghost use Rattle.runfile.specs.Shared.{threads_row, keys_row, operations_row, steps_row, operation_rows, step_row};
ghost use Rattle.runfile.specs.Read.{threads_in, counts_in, head_rows, table_rows, accepted, read_of};
ghost use Rattle.runfile.specs.Write.{disagree, write_of, written_of};
ghost use Rattle.runfile.specs.Answers.{Tested, offset_row, layout_of, file_made, rows_against, reading_of, writing_of};

use figures::{Call, Machine, THREADS};
use std::error::Error;
use std::fmt;
use std::ops::Range;

// The rows of the table of refusals, by name. What each asks and in which order they are tried, specs/Read.antt and specs/Write.antt say.
#[derive(Clone, Copy, PartialEq, Eq, Debug)]
pub enum Refusal {
    NoHead = 1,
    Threads = 2,
    Keys = 3,
    TableCutShort = 4,
    Offset = 5,
    TooManyOperations = 6,
    TooManySteps = 7,
    Length = 8,
    KeyTooLarge = 9,
    Step = 10,
    TooSmall = 11,
    Lists = 12,
    KeyNotBelowK = 13,
    SizeWithKey = 14,
}

impl Refusal {
    // The row's number in the table.
    pub fn number(self) -> u32
        ensures { result ≡ number_of self }
    {
        self as u32
    }

    // This refusal, told at a place.
    pub fn at(self, place: usize) -> Refused
        ensures { result ≡ record { why = self; place = place } }
    {
        Refused { why: self, place }
    }
}

// Why a file is refused, or what the writer is given, and at which place.
#[derive(Clone, Copy, PartialEq, Eq, Debug)]
pub struct Refused {
    pub why: Refusal,
    pub place: usize,
}

impl fmt::Display for Refused {
    ghost output = { λ refused. Some (codes "refused " ++ decimal (number_of refused.why) ++ codes " at " ++ decimal refused.place) };

    fn fmt<W: fmt::Write>(&self, f: &mut fmt::Formatter<W>) -> fmt::Result {
        let number = self.why.number();
        let place = self.place;
        write!(f, "refused {number} at {place}")
    }
}

impl Error for Refused {}

// T and K, and then contents entries of four bytes.
const HEADER: usize = 2;

const ENTRY: usize = 4;

// One byte more than any accepted file has: a longer input is told from that many of its bytes (`kept_same` of proofs/Bounded.antt).
pub const KEPT: usize = HEADER + ENTRY * (THREADS + 1) + Machine::OPERATIONS + Machine::STEPS + 1;

// What an accepted file holds, and where it lies: the counts of absent threads are 0.
// stays: positions, at which callers cut the file: a method that cuts it would need a `requires`, and no public function here has one.
#[derive(Clone, Copy, PartialEq, Eq, Debug)]
pub struct Layout {
    pub threads: u8,
    pub keys: u8,
    pub counts: [u16; THREADS],
    pub operations_at: usize,
    pub operations: usize,
    pub schedule_at: usize,
    pub steps: usize,
}

// The form in which C is handed what reading answers: number 0 where the file is accepted, else the refusal's number and place, and
// every other number 0.
// stays: the C interface needs the number and the values in one struct.
#[repr(C)]
#[derive(Clone, Copy, Default)]
pub struct Reading {
    pub number: u32,
    pub place: usize,
    pub threads: u8,
    pub keys: u8,
    pub counts: [u16; THREADS],
    pub operations_at: usize,
    pub operations: usize,
    pub schedule_at: usize,
    pub steps: usize,
}

impl From<Result<Layout, Refused>> for Reading {
    ghost from_gives = { λ r reading. reading ≡ reading_of r };

    fn from(answer: Result<Layout, Refused>) -> Reading {
        match answer {
            Ok(layout) => {
                let counts = layout.counts;
                Reading {
                    threads: layout.threads,
                    keys: layout.keys,
                    counts,
                    operations_at: layout.operations_at,
                    operations: layout.operations,
                    schedule_at: layout.schedule_at,
                    steps: layout.steps,
                    ..Reading::default()
                }
            }
            Err(refused) => Reading {
                number: refused.why.number(),
                place: refused.place,
                ..Reading::default()
            },
        }
    }
}

// The form in which C is handed what writing answers: number 0 and the file's length, or the refusal's number and place, and length 0.
// stays: the C interface needs the number and the length in one struct.
#[repr(C)]
#[derive(Clone, Copy, Default)]
pub struct Writing {
    pub number: u32,
    pub place: usize,
    pub length: usize,
}

impl From<Result<usize, Refused>> for Writing {
    ghost from_gives = { λ r writing. writing ≡ writing_of r };

    fn from(answer: Result<usize, Refused>) -> Writing {
        match answer {
            Ok(length) => Writing {
                length,
                ..Writing::default()
            },
            Err(refused) => Writing {
                number: refused.why.number(),
                place: refused.place,
                length: 0,
            },
        }
    }
}

// What a run file is made of.
#[derive(Clone, Copy)]
pub struct Contents<'a> {
    pub threads: u8,
    pub keys: u8,
    pub counts: &'a [u16],
    pub operations: &'a [u8],
    pub schedule: &'a [u8],
}

// One contents entry: where a body begins, and how long it is.
#[derive(Clone, Copy)]
struct Entry {
    offset: u16,
    count: u16,
}

impl From<[u8; ENTRY]> for Entry {
    ghost from_gives = { λ bytes entry. (entry.offset ≡ word_at bytes 0) × (entry.count ≡ word_at bytes 2) };

    fn from(bytes: [u8; ENTRY]) -> Entry {
        let [a, b, c, d] = bytes;
        Entry {
            offset: u16::from_le_bytes([a, b]),
            count: u16::from_le_bytes([c, d]),
        }
    }
}

impl Entry {
    fn to_bytes(self) -> [u8; ENTRY]
        ensures { result ≡ entries self.offset (self.count ∷ []) }
    {
        let [a, b] = self.offset.to_le_bytes();
        let [c, d] = self.count.to_le_bytes();
        [a, b, c, d]
    }
}

// Whether an operation byte is allowed where there are so many keys.
fn is_allowed(keys: u8, byte: u8) -> bool
    ensures { result ≡ allowed keys byte }
{
    if Call::from(byte).is_size() {
        byte == 192
    } else {
        figures::key_of(byte) < keys
    }
}

// The row of an operation byte that is not allowed: the kind is looked at first, and then the key.
fn fault(byte: u8) -> Refusal
    ensures { result ≡ fault_row (fault_of byte) }
{
    if Call::from(byte).is_size() {
        Refusal::SizeWithKey
    } else if figures::key_of(byte) < Machine::KEYS {
        Refusal::KeyNotBelowK
    } else {
        Refusal::KeyTooLarge
    }
}

// Whether a number of threads or keys is 0 or above its limit.
fn is_outside(x: u8, most: u8) -> bool
    ensures { result ≡ outside x most }
{
    !(1..=most).contains(&x)
}

// Refuses a number of threads or of keys that is outside its limits.
fn check_head(threads: u8, keys: u8) -> Result<(), Refused>
    ensures { Tested (threads_row threads ∷ keys_row keys ∷ []) result }
{
    if is_outside(threads, Machine::THREADS) {
        return Err(Refusal::Threads.at(0));
    }
    if is_outside(keys, Machine::KEYS) {
        return Err(Refusal::Keys.at(0));
    }
    Ok(())
}

// Refuses too many operations or steps.
fn check_lengths(operations: usize, steps: usize) -> Result<(), Refused>
    ensures { Tested (operations_row operations ∷ steps_row steps ∷ []) result }
{
    if Machine::OPERATIONS < operations {
        return Err(Refusal::TooManyOperations.at(0));
    }
    if Machine::STEPS < steps {
        return Err(Refusal::TooManySteps.at(0));
    }
    Ok(())
}

// Refuses by the first byte of a part of a list that is no allowed operation.
fn check_operations(bytes: &[u8], part: Range<usize>, keys: u8) -> Result<(), Refused>
    requires { (part.start ≤ part.end) × (part.end ≤ length bytes.now) }
    ensures { Tested (operation_rows keys bytes.now part.start part.end) result }
{
    let start = part.start;
    match bytes[part].iter().position(|byte| !is_allowed(keys, *byte)) {
        Some(i) => Err(fault(bytes[start + i]).at(start + i)),
        None => Ok(()),
    }
}

// Refuses by the first byte of a part of a list that names no thread.
fn check_steps(bytes: &[u8], part: Range<usize>, threads: u8) -> Result<(), Refused>
    requires { (part.start ≤ part.end) × (part.end ≤ length bytes.now) }
    ensures { Tested (step_row threads bytes.now part.start part.end ∷ []) result }
{
    let start = part.start;
    match bytes[part].iter().position(|byte| *byte >= threads) {
        Some(i) => Err(Refusal::Step.at(start + i)),
        None => Ok(()),
    }
}

// A file whose head is right, and its contents table: an entry for each thread's operations, and last the schedule's.
#[derive(Clone, Copy)]
struct ContentsTable<'a> {
    file: &'a [u8],
    entries: &'a [[u8; ENTRY]],
    ghost few: { threads_in file.now ≤ most_threads },
    ghost whole: { body_at (threads_in file.now) ≤ length file.now },
    ghost as_many: { length entries.now ≡ threads_in file.now + 1 },
    ghost entries_of_file: { entries.now ≡ first_chunks ENTRY (threads_in file.now + 1) (drop HEADER file.now) },
}

impl<'a> ContentsTable<'a> {
    // Tests the head's rows.
    fn of(file: &'a [u8]) -> Result<ContentsTable<'a>, Refused>
        ensures tested { Tested (head_rows file.now) result }
        ensures same { IfOk result (λ table. table.file.now ≡ file.now) }
    {
        let [threads, keys, rest @ ..] = file else {
            return Err(Refusal::NoHead.at(0));
        };
        check_head(*threads, *keys)?;
        let Some(table) = rest.get(..ENTRY * (usize::from(*threads) + 1)) else {
            return Err(Refusal::TableCutShort.at(0));
        };
        let (entries, _) = table.as_chunks();
        Ok(ContentsTable { file, entries })
    }

    // Refuses by the first entry whose offset is not where the bodies before it end.
    fn check_offsets(&self) -> Result<(), Refused>
        ensures { Tested (offset_row self.now.file.now ∷ []) result }
    {
        let mut end = HEADER + ENTRY * self.entries.len();
        for (i, bytes) in self.entries.iter().enumerate() {
            let entry = Entry::from(*bytes);
            if usize::from(entry.offset) != end {
                return Err(Refusal::Offset.at(HEADER + ENTRY * i));
            }
            end += usize::from(entry.count);
        }
        Ok(())
    }

    // The counts of the threads' operations, and 0 for absent threads.
    fn counts(&self) -> [u16; THREADS]
        ensures { result ≡ counts_in self.now.file.now ++ replicate (most_threads - threads_in self.now.file.now) 0 }
    {
        // stays: places by index, here and in `put_entries`, since nothing is known of what is written through a zip
        let mut counts = [0; THREADS];
        let threads = self.entries.len() - 1;
        for (i, bytes) in self.entries[..threads].iter().enumerate() {
            counts[i] = Entry::from(*bytes).count;
        }
        counts
    }

    // Tests the table's rows: what the file holds, where none applies.
    fn layout(&self) -> Result<Layout, Refused>
        ensures tested { Tested (table_rows self.now.file.now) result }
        ensures value { IfOk result (λ layout. layout ≡ layout_of (accepted self.now.file.now)) }
    {
        self.check_offsets()?;
        let threads = self.file[0];
        let operations_at = HEADER + ENTRY * self.entries.len();
        let schedule = Entry::from(self.entries[usize::from(threads)]);
        let schedule_at = usize::from(schedule.offset);
        let operations = schedule_at - operations_at;
        let steps = usize::from(schedule.count);
        check_lengths(operations, steps)?;
        if self.file.len() != schedule_at + steps {
            return Err(Refusal::Length.at(0));
        }
        let counts = self.counts();
        Ok(Layout {
            threads,
            keys: self.file[1],
            counts,
            operations_at,
            operations,
            schedule_at,
            steps,
        })
    }
}

// Reads a run file: the first row of the table that holds, or what the file holds and where it lies.
pub fn read(file: &[u8]) -> Result<Layout, Refused>
    ensures { reading_of result ≡ read_of file.now }
{
    let layout = ContentsTable::of(file)?.layout()?;
    check_operations(file, layout.operations_at..layout.schedule_at, layout.keys)?;
    check_steps(file, layout.schedule_at..file.len(), layout.threads)?;
    Ok(layout)
}

// ---- The writer.

// The sum of a few counts.
fn sum_counts(counts: &[u16]) -> usize
    requires { length counts.now < 256 }
    ensures { result ≡ sum_to (count_of counts.now) (length counts.now) }
{
    counts.iter().map(|count| usize::from(*count)).sum()
}

// These bytes from a place on.
// stays: byte by byte, since `copy_from_slice` calls C's `memmove`, which the archive for C asks nobody for
fn put(out: &mut [u8], at: usize, bytes: &[u8])
    requires { at + length bytes.now ≤ length out.old }
    ensures { out.new ≡ sets out.old at bytes.now }
{
    for (i, &byte) in bytes.iter().enumerate() {
        out[at + i] = byte;
    }
}

// An entry for each count, the first body at `body`.
fn put_entries(out: &mut [u8], counts: &[u16], body: u16)
    requires { (length counts.now ≤ most_threads) × (entry_at (length counts.now) ≤ length out.old)
        × (body + sum_to (count_of counts.now) (length counts.now) < 65536) }
    ensures { out.new ≡ sets out.old HEADER (entries body counts.now) }
{
    let mut offset = body;
    for (i, &count) in counts.iter().enumerate() {
        let entry = Entry { offset, count };
        put(out, HEADER + ENTRY * i, &entry.to_bytes());
        offset += count;
    }
}

impl Contents<'_> {
    // Whether there are not so many counts as threads, or their sum is not the number of operations. The counts are summed only
    // where they are few, so that the sum fits.
    fn is_disagreeing(&self) -> bool
        ensures { result ≡ disagree self.now.threads self.now.counts.now (length self.now.operations.now) }
    {
        self.counts.len() != usize::from(self.threads)
            || sum_counts(self.counts) != self.operations.len()
    }

    // Tests the writer's rows: the file's length, where none applies.
    fn judge(&self, room: usize) -> Result<usize, Refused>
        ensures tested { Tested (rows_against self.now room) result }
        ensures value { IfOk result (λ n. n ≡ length (file_made self.now)) }
    {
        check_head(self.threads, self.keys)?;
        if self.is_disagreeing() {
            return Err(Refusal::Lists.at(0));
        }
        check_lengths(self.operations.len(), self.schedule.len())?;
        check_operations(self.operations, 0..self.operations.len(), self.keys)?;
        check_steps(self.schedule, 0..self.schedule.len(), self.threads)?;
        let length = HEADER
            + ENTRY * (self.counts.len() + 1)
            + self.operations.len()
            + self.schedule.len();
        if room < length {
            return Err(Refusal::TooSmall.at(0));
        }
        Ok(length)
    }

    // The whole file, of contents that are right, where there is room.
    // stays: `as`, since no `From` narrows, and the check shows that nothing is lost
    fn fill(&self, out: &mut [u8])
        requires { Passes (rows_against self.now (length out.old)) }
        ensures { out.new ≡ sets out.old 0 (file_made self.now) }
    {
        let body = HEADER + ENTRY * (self.counts.len() + 1);
        let end = body + self.operations.len();
        out[0] = self.threads;
        out[1] = self.keys;
        put_entries(out, self.counts, body as u16);
        let schedule = Entry {
            offset: end as u16,
            count: self.schedule.len() as u16,
        };
        put(
            out,
            HEADER + ENTRY * self.counts.len(),
            &schedule.to_bytes(),
        );
        put(out, body, self.operations);
        put(out, end, self.schedule);
    }
}

// Writes a run file into `out` and answers its length; or refuses, and writes nothing.
pub fn write(contents: Contents<'_>, out: &mut [u8]) -> Result<usize, Refused>
    ensures value { writing_of result ≡ write_of contents.entry.threads contents.entry.keys contents.entry.counts.now
        contents.entry.operations.now contents.entry.schedule.now (length out.old) }
    ensures out_after { out.new ≡ sets out.old 0
        (written_of contents.entry.threads contents.entry.keys contents.entry.counts.now contents.entry.operations.now
        contents.entry.schedule.now (length out.old)) }
{
    let length = contents.judge(out.len())?;
    contents.fill(out);
    Ok(length)
}
