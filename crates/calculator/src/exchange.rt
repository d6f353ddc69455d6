// An exchange: what a record of the table of snapshots, its trace or a pair of counters is afterwards, and the value that is found.
ghost use Rattle.std.specs.Prelude.{◌≡◌, ◌-◌};
ghost use Rattle.calculator.specs.Exchanges.{raised_pair, exchanged_of, witnessed_of, traced_of, current_of};

use super::figure4::{block_of, count_at, count_of, new_id, set_count, with_count};
use figures::{Cell, Counts, Kind, Machine, Snapshot, THREADS, Trace};
use terms::{SnapshotId, Target};

// stays: `Nothing` is a case here and in `Request`, and no `Option`, since specs/Exchanges.antt and specs/Requests.antt define over it.
#[derive(Clone, Copy)]
pub enum Exchange {
    Nothing,
    // A cell: the known value for a new one.
    OfCell(Cell, u32, u32),
    // The flag: false, whatever it was.
    OfFlag,
    // The size: INVALID for this.
    OfSize(u32),
    // A whole record anew, collecting or not.
    Anew(bool),
}

// The value that the counter has before it is raised to c.
pub fn before(c: Target) -> u32
    ensures { result ≡ c.0 - 1 }
{
    c.0.saturating_sub(1)
}

// A thread's counters: exchange c-1 for c in that of kind k.
pub fn raised_pair(k: Kind, c: Target, p: Counts) -> Counts
    ensures { result ≡ raised_pair k c p }
{
    if count_of(k, p) == before(c) {
        with_count(k, c.0, p)
    } else {
        p
    }
}

impl Exchange {
    // The value that it finds.
    pub fn witnessed(self, s: &Snapshot) -> u32
        ensures { result ≡ witnessed_of self s.now }
    {
        match self {
            Exchange::Nothing | Exchange::Anew(_) => 0,
            Exchange::OfCell(j, _, _) => count_at(&s.cells, j),
            Exchange::OfFlag => u32::from(s.collecting),
            Exchange::OfSize(_) => s.size,
        }
    }

    // Makes it in a record, and returns the value that it finds.
    pub fn exchange(self, s: &mut Snapshot) -> u32
        ensures found { result ≡ witnessed_of self s.old }
        ensures after { s.new ≡ exchanged_of self s.old }
    {
        let found = self.witnessed(s);
        match self {
            Exchange::Nothing => {}
            // Figure 6, lines 94 and 99: exchange the known value of a cell for a new one.
            Exchange::OfCell(j, known, v) => {
                if found == known {
                    set_count(&mut s.cells, j, v);
                }
            }
            // Figure 5, line 60: write the flag false.
            Exchange::OfFlag => s.collecting = false,
            // Figure 6, line 109: exchange INVALID for the size.
            Exchange::OfSize(v) => {
                if found == Machine::INVALID {
                    s.size = v;
                }
            }
            // Figure 5, line 55, and figure 6, line 87: a new record, of which nothing is known yet.
            Exchange::Anew(collecting) => {
                *s = Snapshot {
                    cells: block_of(Machine::INVALID),
                    collecting,
                    size: Machine::INVALID,
                };
            }
        }
        found
    }

    // What the log needs of the record, after an exchange that found this value.
    pub fn traced(self, heard: u32, step: u32, seen: &[Counts; THREADS], t: &mut Trace)
        ensures { t.new ≡ traced_of self heard step seen.now t.old }
    {
        match self {
            Exchange::Nothing | Exchange::OfCell(_, _, _) => {}
            // The first writing finds the flag raised, and closes the snapshot.
            Exchange::OfFlag => {
                if heard != 0 {
                    t.closed = step;
                }
            }
            // A snapshot whose size was INVALID has this thread for its winner, and is fixed at this step.
            Exchange::OfSize(_) => {
                if heard == Machine::INVALID {
                    t.fixed = step;
                    t.seen = *seen;
                }
            }
            Exchange::Anew(_) => {
                *t = Trace {
                    announced: step,
                    ..Trace::default()
                };
            }
        }
    }

    // Which snapshot is current after the exchange.
    pub fn current_after(self, n: SnapshotId) -> SnapshotId
        ensures { result ≡ current_of self n }
    {
        match self {
            Exchange::Nothing
            | Exchange::OfCell(_, _, _)
            | Exchange::OfFlag
            | Exchange::OfSize(_) => n,
            Exchange::Anew(_) => new_id(n),
        }
    }
}
