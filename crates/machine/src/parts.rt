// What an access changes of its operation's record, of its thread and of its slot, part by part.
ghost use Rattle.std.specs.Prelude.{◌≡◌};
ghost use Rattle.figures.specs.Step.{counted, answered, exchanged_at, raised_at};
ghost use Rattle.machine.specs.Parts.{noted_by, recorded_by, summed_by, stood_by, held_by};

use calculator::figure4::{block_of, set_count};
use figures::{Content, Counts, Deed, Local, Look, Move, Next, Point, Record, SizeDeed, THREADS};
use terms::{OpId, SnapshotId, Target, ThreadId};

// One own step more; the first is the operation's beginning.
fn counted(r: &mut Record, step: u32)
    ensures { r.new ≡ counted step r.old }
{
    if r.outcome.first == 0 {
        r.outcome.first = step;
    }
    r.outcome.own = r.outcome.own.wrapping_add(1);
}

fn answered(r: &mut Record, a: u32, step: u32)
    ensures { r.new ≡ answered a step r.old }
{
    r.outcome.answer = a;
    r.outcome.last = step;
}

// Its slot exchange succeeded, with target c.
fn exchanged_at(r: &mut Record, c: Target, step: u32)
    ensures { r.new ≡ exchanged_at c step r.old }
{
    r.change.target = c;
    r.change.exchanged = step;
}

// Its counter came to its target, by a step of thread t, while snapshot w was being collected.
pub fn raised_at(r: &mut Record, step: u32, w: SnapshotId, t: ThreadId)
    ensures { r.new ≡ raised_at step w t r.old }
{
    r.change.raised = step;
    r.change.window = w;
    r.outcome.raiser = u32::from(t.0);
}

// What the deed tells of its operation: of a size, the snapshot that its answer is taken from.
fn noted(r: &mut Record, step: u32, d: Deed)
    ensures { r.new ≡ noted_by step d r.old }
{
    match d {
        Deed::Finds(found) => r.look = Look { read: step, found },
        Deed::Links(n) => exchanged_at(r, n.note.1, step),
        Deed::Marks(_, n) => exchanged_at(r, n.note.1, step),
        Deed::Sizes(SizeDeed::Fixes(n, _) | SizeDeed::Shares(n)) => r.snapshot = n,
        Deed::Sizes(
            SizeDeed::Looks
            | SizeDeed::Announces
            | SizeDeed::Collects(_, _, _)
            | SizeDeed::Lowers(_)
            | SizeDeed::Keeps(_, _),
        )
        | Deed::Rests
        | Deed::Unlinks
        | Deed::Updates(_, _) => {}
    }
}

// The operation's record after the step.
pub fn recorded(r: &mut Record, step: u32, v: Move)
    ensures { r.new ≡ recorded_by step v.deed v.next r.old }
{
    counted(r, step);
    noted(r, step, v.deed);
    if let Next::Returns(a) = v.next {
        answered(r, a, step);
    }
}

// The values that a thread keeps for its sum: none when it begins to sum, and one more with each cell.
fn summed(seen: &mut [Counts; THREADS], d: SizeDeed)
    ensures { seen.new ≡ summed_by d seen.old }
{
    match d {
        SizeDeed::Lowers(_) => *seen = block_of(0),
        SizeDeed::Keeps(j, v) => set_count(seen, j, v),
        SizeDeed::Looks
        | SizeDeed::Announces
        | SizeDeed::Collects(_, _, _)
        | SizeDeed::Fixes(_, _)
        | SizeDeed::Shares(_) => {}
    }
}

// The thread after the step.
pub fn stood(l: &mut Local, v: Move)
    ensures { l.new ≡ stood_by v.deed v.next l.old }
{
    if let Deed::Sizes(d) = v.deed {
        summed(&mut l.seen, d);
    }
    match v.next {
        Next::To(p) => l.point = p,
        Next::Returns(_) => {
            l.point = Point::Idle;
            l.op = OpId(l.op.0.wrapping_add(1));
        }
    }
}

// The slot after the step.
pub fn held_after(c: Content, d: Deed) -> Content
    ensures { result ≡ held_by d c }
{
    match d {
        Deed::Links(n) => Content::Live(n),
        Deed::Marks(n, x) => Content::Marked(n, x),
        Deed::Unlinks => Content::Empty,
        Deed::Rests | Deed::Finds(_) | Deed::Updates(_, _) | Deed::Sizes(_) => c,
    }
}
