// Figure 5, the methods of the calculator, one access each: updateMetadata and compute.
// stays: free functions, here and in figure6.rt: methods of the points would stand in `figures`, which is kept apart from this code.
ghost use Rattle.std.specs.Prelude.{◌≡◌};
ghost use Rattle.figures.specs.Figure5.{read_count, raise_count, read_current, read_flag, read_again, update_at, find_current, find_flag, announce, collect_count, lower_flag, size_at};

use super::exchange::before;
use super::figure4::new_id;
use super::figure6::{
    collect_cell, collect_set, done, first_cell, fix_size, forward, go_to, goes, on_to, read_cell,
    sum_cell,
};
use figures::{
    Cell, Counts, Sight, SizeDeed, SizeMove, SizePoint, THREADS, UpdateDeed, UpdateMove,
    UpdateNext, UpdatePoint,
};
use terms::{SnapshotId, Target};

// Line 78: read the counter; if it is c-1, exchange.
pub fn read_count(c: Target, s: Sight) -> UpdateMove
    ensures { result ≡ read_count c s }
{
    if s.count == before(c) {
        on_to(UpdatePoint::RaiseCount)
    } else {
        on_to(UpdatePoint::ReadCurrent(false))
    }
}

// Line 79: exchange c-1 for c; this call raised the counter if that succeeded.
pub fn raise_count(c: Target, s: Sight) -> UpdateMove
    ensures { result ≡ raise_count c s }
{
    if s.count == before(c) {
        UpdateMove {
            next: UpdateNext::Then(UpdatePoint::ReadCurrent(true)),
            deed: UpdateDeed::Raises,
        }
    } else {
        on_to(UpdatePoint::ReadCurrent(false))
    }
}

// Line 80: read which snapshot is current.
pub fn read_current(raised: bool, s: Sight) -> UpdateMove
    ensures { result ≡ read_current raised s }
{
    on_to(UpdatePoint::ReadFlag(raised, s.current))
}

// Line 81: read its flag. If not collecting, done.
pub fn read_flag(raised: bool, n: SnapshotId, s: Sight) -> UpdateMove
    ensures { result ≡ read_flag raised n s }
{
    if s.collecting {
        on_to(UpdatePoint::ReadAgain(raised, n))
    } else {
        done(raised)
    }
}

// Line 82: read the counter; unless it is c, done.
pub fn read_again(raised: bool, n: SnapshotId, c: Target, s: Sight) -> UpdateMove
    ensures { result ≡ read_again raised n c s }
{
    if s.count == c.0 {
        on_to(UpdatePoint::ReadCell(raised, n))
    } else {
        done(raised)
    }
}

// Lines 75 to 83: one access of updateMetadata for target c.
pub fn update(p: UpdatePoint, c: Target, s: Sight) -> UpdateMove
    ensures { result ≡ update_at p c s }
{
    match p {
        UpdatePoint::ReadCount => read_count(c, s),
        UpdatePoint::RaiseCount => raise_count(c, s),
        UpdatePoint::ReadCurrent(raised) => read_current(raised, s),
        UpdatePoint::ReadFlag(raised, n) => read_flag(raised, n, s),
        UpdatePoint::ReadAgain(raised, n) => read_again(raised, n, c, s),
        UpdatePoint::ReadCell(raised, n) => read_cell(raised, n, c, s),
        UpdatePoint::Forward(raised, n, known) => forward(raised, n, known, c, s),
    }
}

// Line 63: read the current snapshot.
pub fn find_current(s: Sight) -> SizeMove
    ensures { result ≡ find_current s }
{
    go_to(SizePoint::FindFlag(s.current))
}

// Line 64: read its flag. If collecting, use it.
pub fn find_flag(n: SnapshotId, s: Sight) -> SizeMove
    ensures { result ≡ find_flag n s }
{
    let p = if s.collecting {
        SizePoint::CollectCount(n, first_cell())
    } else {
        SizePoint::Announce(n)
    };
    go_to(p)
}

// Line 67: exchange it for a new collecting one; on failure use the witnessed one.
pub fn announce(n: SnapshotId, s: Sight) -> SizeMove
    ensures { result ≡ announce n s }
{
    if s.current == n {
        goes(
            SizePoint::CollectCount(new_id(s.current), first_cell()),
            SizeDeed::Announces,
        )
    } else {
        go_to(SizePoint::CollectCount(s.current, first_cell()))
    }
}

// Line 74: read the counter.
pub fn collect_count(n: SnapshotId, j: Cell, s: Sight) -> SizeMove
    ensures { result ≡ collect_count n j s }
{
    go_to(SizePoint::CollectCell(n, j, s.count))
}

// Line 60: write the flag false.
pub fn lower_flag(n: SnapshotId) -> SizeMove
    ensures { result ≡ lower_flag n }
{
    goes(SizePoint::SumCell(n, first_cell()), SizeDeed::Lowers(n))
}

// Lines 57 to 74: one access of compute, with so many threads, by a thread that has read the values `seen` for its sum.
pub fn size(p: SizePoint, threads: u8, seen: &[Counts; THREADS], s: Sight) -> SizeMove
    ensures { result ≡ size_at p threads seen.now s }
{
    match p {
        SizePoint::FindCurrent => find_current(s),
        SizePoint::FindFlag(n) => find_flag(n, s),
        SizePoint::Announce(n) => announce(n, s),
        SizePoint::CollectCount(n, j) => collect_count(n, j, s),
        SizePoint::CollectCell(n, j, v) => collect_cell(threads, n, j, v, s),
        SizePoint::CollectSet(n, j, v) => collect_set(threads, n, j, v, s),
        SizePoint::LowerFlag(n) => lower_flag(n),
        SizePoint::SumCell(n, j) => sum_cell(threads, n, j, s),
        SizePoint::FixSize(n) => fix_size(n, seen, s),
    }
}
