// What an access asks of the counters and of the table of snapshots, told before anything is read: at most one access of one of
// them. What lends memory makes it and hands back the one number that was heard.
ghost use Rattle.std.specs.Prelude.{◌≡◌};
ghost use Rattle.calculator.specs.Requests.{update_request, size_request, record_of, trace_by, current_by};

use super::exchange::Exchange;
use super::figure4::new_id;
use super::figure6::total;
use figures::{Cell, Counts, Machine, SizePoint, THREADS, Trace, UpdatePoint};
use terms::{SnapshotId, Target};

#[derive(Clone, Copy)]
pub enum Request {
    // Nothing of these two: an access of a slot, or of which snapshot is current.
    Nothing,
    // Read a counter.
    Count(Cell),
    // Exchange c-1 for c in a counter.
    Raise(Cell, Target),
    // Read a record's flag.
    Flag(SnapshotId),
    // Read a cell of a record.
    Value(SnapshotId, Cell),
    // Make an exchange in a record.
    Exchanges(SnapshotId, Exchange),
}

// What an access of updateMetadata for cell j and target c asks.
pub fn update_request(p: UpdatePoint, j: Cell, c: Target) -> Request
    ensures { result ≡ update_request p j c }
{
    match p {
        UpdatePoint::ReadCount | UpdatePoint::ReadAgain(_, _) => Request::Count(j),
        UpdatePoint::RaiseCount => Request::Raise(j, c),
        UpdatePoint::ReadCurrent(_) => Request::Nothing,
        UpdatePoint::ReadFlag(_, n) => Request::Flag(n),
        UpdatePoint::ReadCell(_, n) => Request::Value(n, j),
        UpdatePoint::Forward(_, n, known) => Request::Exchanges(n, Exchange::OfCell(j, known, c.0)),
    }
}

// What an access of compute asks, by a thread that has read the values `seen` for its sum.
pub fn size_request(p: SizePoint, current: SnapshotId, seen: &[Counts; THREADS]) -> Request
    ensures { result ≡ size_request p current seen.now }
{
    match p {
        SizePoint::FindCurrent => Request::Nothing,
        SizePoint::FindFlag(n) => Request::Flag(n),
        // An announcement exchanges nothing where another snapshot is current than the one that it knows.
        SizePoint::Announce(n) => {
            if current == n {
                Request::Exchanges(new_id(current), Exchange::Anew(true))
            } else {
                Request::Nothing
            }
        }
        SizePoint::CollectCount(_, j) => Request::Count(j),
        SizePoint::CollectCell(n, j, _) | SizePoint::SumCell(n, j) => Request::Value(n, j),
        SizePoint::CollectSet(n, j, v) => Request::Exchanges(
            n,
            Exchange::OfCell(j, Machine::INVALID, v),
        ),
        SizePoint::LowerFlag(n) => Request::Exchanges(n, Exchange::OfFlag),
        SizePoint::FixSize(n) => Request::Exchanges(n, Exchange::OfSize(total(seen))),
    }
}

impl Request {
    // The record that it names; 0 where it names none.
    // stays: no `Option`, since `record_of` of specs/Requests.antt is 0 there
    pub fn record_of(self) -> SnapshotId
        ensures { result ≡ record_of self }
    {
        match self {
            Request::Nothing | Request::Count(_) | Request::Raise(_, _) => SnapshotId(0),
            Request::Flag(n) | Request::Value(n, _) | Request::Exchanges(n, _) => n,
        }
    }

    // What the log needs of that record, after a request that heard this number.
    pub fn trace_by(self, heard: u32, step: u32, seen: &[Counts; THREADS], t: &mut Trace)
        ensures { t.new ≡ trace_by self heard step seen.now t.old }
    {
        if let Request::Exchanges(_, x) = self {
            x.traced(heard, step, seen, t);
        }
    }

    // Which snapshot is current afterwards.
    pub fn current_by(self, n: SnapshotId) -> SnapshotId
        ensures { result ≡ current_by self n }
    {
        match self {
            Request::Exchanges(_, x) => x.current_after(n),
            Request::Nothing
            | Request::Count(_)
            | Request::Raise(_, _)
            | Request::Flag(_)
            | Request::Value(_, _) => n,
        }
    }
}
