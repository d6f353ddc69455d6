// Document 01, "Where an operation stands in the log": a function for each rule, in its order. Each takes the few parts of the
// machine that its rule reads.
ghost use Rattle.std.specs.Prelude.{◌≡◌, ◌||◌};
ghost use Rattle.history.specs.Places.{place, number_of};
ghost use Rattle.figures.specs.Places.{returned, was_raised, kind_of, own_cell, after_stands};
ghost use Rattle.places.specs.Parts.{decider_of, size_stands_by, missed_by};
ghost use Rattle.places.specs.Parts.{update_stands_by, finder_stands_by, set_stands_by, stands_by};

use calculator::figure4::count_at;
use figures::{Call, Cell, Content, Kind, Record, Trace};
use history::Place;
use terms::OpId;

// ---- The parts that are read of a machine. An operation, a snapshot or a thread that is not there gives zeros.

// What an update reads of the snapshot that was being collected at its raising: the steps of its closing and of its fixing (0: not
// yet), and the value that its winner read from the update's cell for its sum.
// stays: 0 for not yet, as a trace has it (`missed` of specs/Places.antt in figures asks `fixed` for 0)
#[derive(Clone, Copy, Default)]
pub struct Window {
    pub closed: u32,
    pub fixed: u32,
    pub seen: u32,
}

impl Window {
    ghost use Rattle.places.specs.Parts.{window_by};

    pub fn of(trace: &Trace, cell: Cell) -> Window
        ensures { result ≡ window_by trace.now cell }
    {
        Window {
            closed: trace.closed,
            fixed: trace.fixed,
            seen: count_at(&trace.seen, cell),
        }
    }
}

// ---- Only returned operations and raised updates are listed.

pub fn was_raised(r: &Record) -> bool
    ensures { result ≡ was_raised r.now }
{
    0 < r.change.raised
}

pub fn is_listed(r: &Record) -> bool
    ensures { result ≡ (returned r.now || was_raised r.now) }
{
    0 < r.outcome.last || was_raised(r)
}

// The operation whose update decides where operation o stands: its own if that was raised, else the one that was found. Where
// none was found it is not asked, and o will do.
pub fn decider(o: OpId, r: &Record) -> OpId
    ensures { result ≡ decider_of o r.now }
{
    if was_raised(r) {
        return o;
    }
    match r.look.found {
        Content::Empty => o,
        Content::Live(d) | Content::Marked(_, d) => d.op,
    }
}

// ---- Size: at its snapshot's closing; several by thread number.

pub fn size_stands(r: &Record, closed: u32) -> Place
    ensures { result ≡ size_stands_by r.now closed }
{
    Place {
        step: closed,
        rank: 0,
        tie: u32::from(r.asked.thread.0),
        read: 0,
    }
}

// ---- An update: at its raising, or after the closing of the snapshot that missed it.

fn kind_of(call: Call) -> Kind
    ensures { result ≡ kind_of call }
{
    match call {
        Call::Insert | Call::Contains | Call::Size => Kind::Insertion,
        Call::Delete => Kind::Deletion,
    }
}

pub fn own_cell(r: &Record) -> Cell
    ensures { result ≡ own_cell r.now }
{
    Cell {
        thread: r.asked.thread,
        kind: kind_of(r.asked.call),
    }
}

// The winner's own reading counts, not what the cell holds by now.
pub fn missed(r: &Record, w: Window) -> bool
    ensures { result ≡ missed_by r.now w }
{
    r.change.window.0 != 0 && w.fixed != 0 && w.seen < r.change.target.0
}

pub fn update_stands(r: &Record, w: Window) -> Place
    ensures { result ≡ update_stands_by r.now w }
{
    let raised = r.change.raised;
    Place {
        step: if missed(r, w) { w.closed } else { raised },
        rank: 1,
        tie: raised,
        read: 0,
    }
}

// ---- Other returned operations: at their last slot read, or directly after the update that was found there.

fn at_read(read: u32) -> Place
    ensures { result ≡ place read 1 read 0 }
{
    Place {
        step: read,
        rank: 1,
        tie: read,
        read: 0,
    }
}

pub fn after_stands(p: Place, read: u32) -> Place
    ensures { result ≡ after_stands p read }
{
    if p.step < read {
        at_read(read)
    } else {
        Place { rank: 1, read, ..p }
    }
}

// Where the update that was found stands, is p.
pub fn finder_stands(found: Content, p: Place, read: u32) -> Place
    ensures { result ≡ finder_stands_by found p read }
{
    match found {
        Content::Empty => at_read(read),
        Content::Live(_) | Content::Marked(_, _) => after_stands(p, read),
    }
}

// Where the deciding update stands, is p.
fn set_stands(r: &Record, p: Place) -> Place
    ensures { result ≡ set_stands_by r.now p }
{
    if was_raised(r) {
        p
    } else {
        finder_stands(r.look.found, p, r.look.read)
    }
}

// The deciding update stands at p, and the snapshot that the operation took its answer from closed at the step.
pub fn stands(r: &Record, p: Place, closed: u32) -> Place
    ensures { result ≡ stands_by r.now.asked.call r.now p closed }
{
    match r.asked.call {
        Call::Insert | Call::Delete | Call::Contains => set_stands(r, p),
        Call::Size => size_stands(r, closed),
    }
}

// ---- The number that orders the log.

pub fn number_of(p: Place) -> u64
    ensures { result ≡ number_of p }
{
    let step = u64::from(p.step);
    let rank = u64::from(p.rank);
    let tie = u64::from(p.tie);
    let read = u64::from(p.read);
    ((step * 2 + rank) * 8192 + tie % 8192) * 8192 + read % 8192
}
