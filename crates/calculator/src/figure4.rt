// Figure 4, the calculator's fields: what an access sees of them, and the calculator after each change.
ghost use Rattle.std.specs.Prelude.{◌≡◌, not, ◌==◌};
ghost use Rattle.figures.specs.Figure4.{block_of, count_of, with_count, count_at, set_count, new_id};
ghost use Rattle.calculator.specs.Exchanges.{window_in};
ghost use Rattle.calculator.specs.Requests.{sight_by};

use figures::{Cell, Counts, Kind, Sight, THREADS};
use terms::SnapshotId;

pub fn count_of(k: Kind, c: Counts) -> u32
    ensures { result ≡ count_of k c }
{
    match k {
        Kind::Insertion => c.insertions,
        Kind::Deletion => c.deletions,
    }
}

pub fn with_count(k: Kind, n: u32, c: Counts) -> Counts
    ensures { result ≡ with_count k n c }
{
    match k {
        Kind::Insertion => Counts { insertions: n, ..c },
        Kind::Deletion => Counts { deletions: n, ..c },
    }
}

// The count of a cell's thread and kind; a thread that is not there has none, and 0 is read.
pub fn count_at(b: &[Counts; THREADS], j: Cell) -> u32
    ensures { result ≡ count_at b.now j }
{
    b.get(usize::from(j.thread.0))
        .map_or(0, |c| count_of(j.kind, *c))
}

pub fn set_count(b: &mut [Counts; THREADS], j: Cell, n: u32)
    ensures { b.new ≡ set_count b.old j n }
{
    let i = usize::from(j.thread.0);
    // stays: an index, since after a slice's `get_mut` the check knows its length and none of its elements
    if i < THREADS {
        b[i] = with_count(j.kind, n, b[i]);
    }
}

pub fn block_of(n: u32) -> [Counts; THREADS]
    ensures { result ≡ block_of n }
{
    [Counts {
        insertions: n,
        deletions: n,
    }; THREADS]
}

// What an access sees that heard this number of what it asked for: a count, a cell, a size, or a flag as 1 or 0.
pub fn sight_by(heard: u32, current: SnapshotId) -> Sight
    ensures { result ≡ sight_by heard current }
{
    Sight {
        count: heard,
        current,
        collecting: heard != 0,
        cell: heard,
        size: heard,
    }
}

// The snapshot that is being collected: the current one, if it was not closed at any step (0: not yet), and else 0.
// stays: no `Option`, since `window_in` of specs/Exchanges.antt is 0 there
pub fn window_of(current: SnapshotId, closed: u32) -> SnapshotId
    ensures { result ≡ window_in current closed }
{
    if closed == 0 { current } else { SnapshotId(0) }
}

pub fn new_id(n: SnapshotId) -> SnapshotId
    ensures { result ≡ new_id n }
{
    SnapshotId(n.0.wrapping_add(1))
}
