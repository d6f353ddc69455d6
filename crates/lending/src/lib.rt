// Lent memory: the block of counters, and a slice of snapshot records. Each function here makes one access, to one part; what is found
// and what is there afterwards is told by the functions of the crate `calculator`.
#![tactic(auto)]

ghost use Rattle.std.specs.Prelude.{◌≡◌, cond};
ghost use Rattle.figures.specs.Figure4.{count_at};
ghost use Rattle.calculator.specs.Exchanges.{absent, raised_in, witnessed_of};
ghost use Rattle.calculator.specs.Requests.{record_in, exchanged_in, heard, counters_by, table_by};

use calculator::exchange::{Exchange, raised_pair};
use calculator::figure4::{block_of, count_at, count_of};
use calculator::request::Request;
use figures::{Cell, Counts, Snapshot, THREADS};
use terms::{SnapshotId, Target};

// The counter of a cell. A thread that is not there has none: 0 is read.
pub fn count(block: &[Counts; THREADS], cell: Cell) -> u32
    ensures { result ≡ count_at block.now cell }
{
    count_at(block, cell)
}

// Figure 5, line 79: exchanges c-1 for c in the counter of j, and returns the value witnessed. A thread that is not there has no
// counter: 0 is witnessed.
pub fn raise(block: &mut [Counts; THREADS], j: Cell, c: Target) -> u32
    ensures { (result ≡ count_at block.old j) × (block.new ≡ raised_in block.old j c) }
{
    let i = usize::from(j.thread.0);
    // stays: an index, since after a slice's `get_mut` the check knows its length and none of its elements
    if i < THREADS {
        let p = block[i];
        block[i] = raised_pair(j.kind, c, p);
        count_of(j.kind, p)
    } else {
        0
    }
}

// What stands beyond the end of a lent table.
pub fn no_snapshot() -> Snapshot
    ensures { result ≡ absent }
{
    Snapshot::default()
}

// Record n of a lent table.
// stays: by value, since two answers that meet the promise are equal (`read_once`), and two references to one record need not be
pub fn read(table: &[Snapshot], n: SnapshotId) -> Snapshot
    ensures { result ≡ record_in table.now n }
{
    table
        .get(usize::from(n.0))
        .copied()
        .unwrap_or_else(no_snapshot)
}

// Makes an exchange in record n of a lent table, and returns the value witnessed.
pub fn exchange(table: &mut [Snapshot], n: SnapshotId, x: Exchange) -> u32
    ensures { (result ≡ witnessed_of x (record_in table.old n)) × (table.new ≡ exchanged_in table.old n x) }
{
    let k = usize::from(n.0);
    // stays: an index, as in `raise`
    if k < table.len() {
        x.exchange(&mut table[k])
    } else {
        x.witnessed(&no_snapshot())
    }
}

// Makes the one access that is asked for, and returns what is heard.
pub fn perform(table: &mut [Snapshot], block: &mut [Counts; THREADS], q: Request) -> u32
    ensures { (result ≡ heard q block.old table.old) × (block.new ≡ counters_by q block.old) × (table.new ≡ table_by q table.old) }
{
    match q {
        Request::Nothing => 0,
        Request::Count(j) => count(block, j),
        Request::Raise(j, c) => raise(block, j, c),
        Request::Flag(n) => u32::from(read(table, n).collecting),
        Request::Value(n, j) => count_at(&read(table, n).cells, j),
        Request::Exchanges(n, x) => exchange(table, n, x),
    }
}
