// Figure 6, the methods of a snapshot, one access each: forward, add, computeSize.
ghost use Rattle.std.specs.Prelude.{◌≡◌, if◌then◌else◌, ltb, Some, None};
ghost use Rattle.figures.specs.declared.SizeNext.TheVariants.{Goes};
ghost use Rattle.figures.specs.Figure6.{on_to, done, forward_from, read_cell, forward, first_cell, next_cell, go_to, collect_next, collect_cell, collect_set, sum_cell, sum_of, total_of, fix_size};

use super::figure4::count_of;
use figures::{
    Cell, Counts, Kind, Machine, Sight, SizeDeed, SizeMove, SizeNext, SizePoint, THREADS,
    UpdateDeed, UpdateMove, UpdateNext, UpdatePoint,
};
use terms::{SnapshotId, Target, ThreadId};

// An access that changes nothing: on to the next, or the end of the update. It reports `raised`: whether this call raised the counter.
// stays: two functions of one shape, for two definitions: one over `UpdateNext` would be called as `reads(UpdateNext::Then(p))`
pub fn on_to(p: UpdatePoint) -> UpdateMove
    ensures { result ≡ on_to p }
{
    UpdateMove {
        next: UpdateNext::Then(p),
        deed: UpdateDeed::Reads,
    }
}

pub fn done(raised: bool) -> UpdateMove
    ensures { result ≡ done raised }
{
    UpdateMove {
        next: UpdateNext::Done(raised),
        deed: UpdateDeed::Reads,
    }
}

// Lines 97 and 98: while the cell is INVALID or below the target, exchange the known value.
fn forward_from(raised: bool, n: SnapshotId, c: Target, v: u32) -> UpdateMove
    ensures { result ≡ forward_from raised n c v }
{
    if v == Machine::INVALID || v < c.0 {
        on_to(UpdatePoint::Forward(raised, n, v))
    } else {
        done(raised)
    }
}

// Line 96: read the cell.
pub fn read_cell(raised: bool, n: SnapshotId, c: Target, s: Sight) -> UpdateMove
    ensures { result ≡ read_cell raised n c s }
{
    forward_from(raised, n, c, s.cell)
}

// Line 99: exchange the known value for the target, ending on success and otherwise taking the witnessed value.
pub fn forward(raised: bool, n: SnapshotId, known: u32, c: Target, s: Sight) -> UpdateMove
    ensures { result ≡ forward raised n known c s }
{
    if s.cell == known {
        UpdateMove {
            next: UpdateNext::Done(raised),
            deed: UpdateDeed::Forwards(n),
        }
    } else {
        forward_from(raised, n, c, s.cell)
    }
}

// The cells in order: for each thread, insertion then deletion.
pub fn first_cell() -> Cell
    ensures { result ≡ first_cell }
{
    Cell {
        thread: ThreadId(0),
        kind: Kind::Insertion,
    }
}

fn next_cell(j: Cell) -> Cell
    ensures { result ≡ next_cell j }
{
    match j.kind {
        Kind::Insertion => Cell {
            kind: Kind::Deletion,
            ..j
        },
        Kind::Deletion => Cell {
            thread: ThreadId(j.thread.0.wrapping_add(1)),
            kind: Kind::Insertion,
        },
    }
}

// The next cell of the threads there are; none after the last.
fn cell_after(threads: u8, j: Cell) -> Option<Cell>
    ensures { result ≡ (if ltb (next_cell j).thread.0 threads then Some (next_cell j) else None) }
{
    let i = next_cell(j);
    if i.thread.0 < threads { Some(i) } else { None }
}

// An access after which the thread goes on to p.
pub fn goes(p: SizePoint, d: SizeDeed) -> SizeMove
    ensures { result ≡ record { next = Goes p; deed = d } }
{
    SizeMove {
        next: SizeNext::Goes(p),
        deed: d,
    }
}

// An access that changes nothing.
pub fn go_to(p: SizePoint) -> SizeMove
    ensures { result ≡ go_to p }
{
    goes(p, SizeDeed::Looks)
}

// On to the next cell; after the last, figure 5, line 60.
fn collect_next(threads: u8, n: SnapshotId, j: Cell) -> SizePoint
    ensures { result ≡ collect_next threads n j }
{
    cell_after(threads, j).map_or(SizePoint::LowerFlag(n), |i| SizePoint::CollectCount(n, i))
}

// Line 93: read the cell.
pub fn collect_cell(threads: u8, n: SnapshotId, j: Cell, v: u32, s: Sight) -> SizeMove
    ensures { result ≡ collect_cell threads n j v s }
{
    let p = if s.cell == Machine::INVALID {
        SizePoint::CollectSet(n, j, v)
    } else {
        collect_next(threads, n, j)
    };
    go_to(p)
}

// Line 94: exchange INVALID for the value read.
pub fn collect_set(threads: u8, n: SnapshotId, j: Cell, v: u32, s: Sight) -> SizeMove
    ensures { result ≡ collect_set threads n j v s }
{
    let p = collect_next(threads, n, j);
    if s.cell == Machine::INVALID {
        goes(p, SizeDeed::Collects(n, j, v))
    } else {
        go_to(p)
    }
}

// Line 107: read a cell for the sum; after the last, line 109.
pub fn sum_cell(threads: u8, n: SnapshotId, j: Cell, s: Sight) -> SizeMove
    ensures { result ≡ sum_cell threads n j s }
{
    let p = cell_after(threads, j).map_or(SizePoint::FixSize(n), |i| SizePoint::SumCell(n, i));
    goes(p, SizeDeed::Keeps(j, s.cell))
}

// The sum of one kind.
fn sum_of(k: Kind, b: &[Counts; THREADS]) -> u64
    ensures { result ≡ sum_of k b.now }
{
    b.iter().map(|c| u64::from(count_of(k, *c))).sum()
}

// The sum of insertions less deletions.
pub fn total(b: &[Counts; THREADS]) -> u32
    ensures { result ≡ total_of b.now }
{
    let difference = sum_of(Kind::Insertion, b).saturating_sub(sum_of(Kind::Deletion, b));
    // stays: the definition keeps the low 32 bits, which no conversion of std does
    (difference % (1 << 32)) as u32
}

// Line 109: exchange INVALID for the sum; on failure return the witnessed size.
pub fn fix_size(n: SnapshotId, seen: &[Counts; THREADS], s: Sight) -> SizeMove
    ensures { result ≡ fix_size n seen.now s }
{
    let sum = total(seen);
    if s.size == Machine::INVALID {
        SizeMove {
            next: SizeNext::Sized(sum),
            deed: SizeDeed::Fixes(n, sum),
        }
    } else {
        SizeMove {
            next: SizeNext::Sized(s.size),
            deed: SizeDeed::Shares(n),
        }
    }
}
