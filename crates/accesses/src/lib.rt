// The code of figure 3, the set over the calculator: one function per access, named after it. What each must yield is defined in the
// crate `figures`. What an access asks of the counters and of the table of snapshots is told before anything is read (`request`); it is
// told what it sees, and says where the thread goes on and what it changes (`access`).
#![tactic(auto)]

ghost use Rattle.std.specs.Prelude.{◌≡◌, if◌then◌else◌};
ghost use Rattle.figures.specs.declared.Deed.TheVariants.{Rests, Unlinks};
ghost use Rattle.figures.specs.Figure3.{insertion, deletion, node_of, is_live, is_marked, goes_to, contains_found, insert_found, delete_found, found, read_slot, count_insertions, link, help_unlink, count_deletions, mark, unlink, afterwards, update_next, updating, size_next, sizing, entry, cell_of};
ghost use Rattle.figures.specs.Step.{stands_at, access_of};
ghost use Rattle.calculator.specs.declared.request.Request.TheVariants.{Count};
ghost use Rattle.accesses.specs.Requests.{request_at};

use calculator::figure5::{size, update};
use calculator::request::{Request, size_request, update_request};
use figures::{
    After, Call, Cell, Content, Counts, Deed, Kind, Move, Next, Node, Point, Sight, SizeNext,
    SizePoint, THREADS, Update, UpdateNext, UpdatePoint,
};
use terms::{Note, OpId, SnapshotId, Target, ThreadId};

// stays: two functions of one shape, for two definitions: `updated(Kind::Deletion, d)` is no plainer than `deletion(d)`
fn insertion(n: Node) -> Update
    ensures { result ≡ insertion n }
{
    Update {
        kind: Kind::Insertion,
        node: n,
    }
}

fn deletion(d: Node) -> Update
    ensures { result ≡ deletion d }
{
    Update {
        kind: Kind::Deletion,
        node: d,
    }
}

fn node_of(t: ThreadId, c: Target, o: OpId) -> Node
    ensures { result ≡ node_of t c o }
{
    Node {
        note: Note(t, c),
        op: o,
    }
}

// Update metadata, and then what follows.
fn update_then(u: Update, a: After) -> Next
    ensures { result ≡ Rattle.figures.specs.Figure3.update u a }
{
    Next::To(Point::Updating(UpdatePoint::ReadCount, u, a))
}

fn is_live(n: Node, c: Content) -> bool
    ensures { result ≡ is_live n c }
{
    matches!(c, Content::Live(a) if a.op == n.op)
}

fn is_marked(n: Node, d: Node, c: Content) -> bool
    ensures { result ≡ is_marked n d c }
{
    matches!(c, Content::Marked(a, b) if a.op == n.op && b.op == d.op)
}

fn goes_to(p: Point) -> Move
    ensures { result ≡ goes_to p }
{
    Move {
        next: Next::To(p),
        deed: Deed::Rests,
    }
}

// Contains, lines 7 to 14.
// stays: a function for each operation of the figure, though all three match alike: they differ in what follows, arm by arm
fn contains_found(c: Content) -> Next
    ensures { result ≡ contains_found c }
{
    match c {
        Content::Empty => Next::Returns(0),
        Content::Live(n) => update_then(insertion(n), After::Answer(1)),
        Content::Marked(_, d) => update_then(deletion(d), After::Answer(0)),
    }
}

// Insert, lines 16 to 22.
fn insert_found(c: Content) -> Next
    ensures { result ≡ insert_found c }
{
    match c {
        Content::Empty => Next::To(Point::CountInsertions),
        Content::Live(n) => update_then(insertion(n), After::Answer(0)),
        // Lines 21 and 42: the deletion is raised before the marked node may be unlinked, so that no update is lost with it.
        Content::Marked(n, d) => update_then(deletion(d), After::ToHelpUnlink(n, d)),
    }
}

// Delete, lines 29 to 34.
fn delete_found(c: Content) -> Next
    ensures { result ≡ delete_found c }
{
    match c {
        Content::Empty => Next::Returns(0),
        // Lines 34 and 36: the insertion is helped before the node may be marked, so that no size counts a deletion without it.
        Content::Live(n) => update_then(insertion(n), After::ToMark(n)),
        Content::Marked(_, d) => update_then(deletion(d), After::Answer(0)),
    }
}

// What follows the slot's read (a size makes none).
fn found(k: Call, c: Content) -> Next
    ensures { result ≡ found k c }
{
    match k {
        Call::Insert => insert_found(c),
        Call::Delete => delete_found(c),
        Call::Contains => contains_found(c),
        Call::Size => Next::Returns(0),
    }
}

// Lines 7, 16 and 29: read the slot.
fn read_slot(k: Call, c: Content) -> Move
    ensures { result ≡ read_slot k c }
{
    Move {
        next: found(k, c),
        deed: Deed::Finds(c),
    }
}

// Lines 22 and 85: read own insertion counter; the target is that plus 1.
fn count_insertions(s: Sight) -> Move
    ensures { result ≡ count_insertions s }
{
    goes_to(Point::Link(Target(s.count.wrapping_add(1))))
}

// Line 25: exchange empty for the new live node. On failure, read again. On success, update, true.
fn link(t: ThreadId, o: OpId, c: Target, held: Content) -> Move
    ensures { result ≡ link t o c held }
{
    let n = node_of(t, c, o);
    match held {
        Content::Empty => Move {
            next: update_then(insertion(n), After::Answer(1)),
            deed: Deed::Links(n),
        },
        Content::Live(_) | Content::Marked(_, _) => goes_to(Point::ReadSlot),
    }
}

// Exchange the marked node for empty, if it is there.
fn unlinks(n: Node, d: Node, c: Content) -> Deed
    ensures { result ≡ (if is_marked n d c then Unlinks else Rests) }
{
    if is_marked(n, d, c) {
        Deed::Unlinks
    } else {
        Deed::Rests
    }
}

// Line 42: exchange that marked node for empty (failure is ignored), read again.
fn help_unlink(n: Node, d: Node, c: Content) -> Move
    ensures { result ≡ help_unlink n d c }
{
    Move {
        next: Next::To(Point::ReadSlot),
        deed: unlinks(n, d, c),
    }
}

// Lines 35 and 85: read own deletion counter.
fn count_deletions(n: Node, s: Sight) -> Move
    ensures { result ≡ count_deletions n s }
{
    goes_to(Point::Mark(n, Target(s.count.wrapping_add(1))))
}

// Line 36: exchange that live node for the marked one. On failure, read again. On success, update.
fn mark(t: ThreadId, o: OpId, n: Node, c: Target, held: Content) -> Move
    ensures { result ≡ mark t o n c held }
{
    let d = node_of(t, c, o);
    if is_live(n, held) {
        // Lines 37 and 38: the deletion is raised before the node may be unlinked, so that whoever finds it can help.
        Move {
            next: update_then(deletion(d), After::ToUnlink(n, d)),
            deed: Deed::Marks(n, d),
        }
    } else {
        goes_to(Point::ReadSlot)
    }
}

// Line 38: exchange the marked node for empty (failure is ignored), true.
fn unlink(n: Node, d: Node, c: Content) -> Move
    ensures { result ≡ unlink n d c }
{
    Move {
        next: Next::Returns(1),
        deed: unlinks(n, d, c),
    }
}

// What follows once the metadata is up to date.
fn afterwards(a: After) -> Next
    ensures { result ≡ afterwards a }
{
    match a {
        After::Answer(x) => Next::Returns(x),
        After::ToMark(n) => Next::To(Point::CountDeletions(n)),
        After::ToHelpUnlink(n, d) => Next::To(Point::HelpUnlink(n, d)),
        After::ToUnlink(n, d) => Next::To(Point::Unlink(n, d)),
    }
}

fn update_next(x: UpdateNext, u: Update, a: After) -> Next
    ensures { result ≡ update_next x u a }
{
    match x {
        UpdateNext::Then(p) => Next::To(Point::Updating(p, u, a)),
        UpdateNext::Done(_) => afterwards(a),
    }
}

// Lines 10, 13, 18, 21, 26, 32, 34 and 37: one access of updateMetadata, and what follows the last.
fn updating(p: UpdatePoint, u: Update, a: After, s: Sight) -> Move
    ensures { result ≡ updating p u a s }
{
    let v = update(p, u.node.note.1, s);
    Move {
        next: update_next(v.next, u, a),
        deed: Deed::Updates(v.deed, u),
    }
}

fn size_next(x: SizeNext) -> Next
    ensures { result ≡ size_next x }
{
    match x {
        SizeNext::Goes(p) => Next::To(Point::Sizing(p)),
        SizeNext::Sized(a) => Next::Returns(a),
    }
}

// Line 41: one access of compute.
fn sizing(p: SizePoint, threads: u8, seen: &[Counts; THREADS], s: Sight) -> Move
    ensures { result ≡ sizing p threads seen.now s }
{
    let v = size(p, threads, seen, s);
    Move {
        next: size_next(v.next),
        deed: Deed::Sizes(v.deed),
    }
}

// The first access of an operation.
fn entry(k: Call) -> Point
    ensures { result ≡ Rattle.figures.specs.Figure3.entry k }
{
    match k {
        Call::Insert | Call::Delete | Call::Contains => Point::ReadSlot,
        Call::Size => Point::Sizing(SizePoint::FindCurrent),
    }
}

pub fn cell_of(u: Update) -> Cell
    ensures { result ≡ cell_of u }
{
    Cell {
        thread: u.node.note.0,
        kind: u.kind,
    }
}

// Between operations a thread begins the next one.
pub fn stands_at(p: Point, k: Call) -> Point
    ensures { result ≡ stands_at p k }
{
    match p {
        Point::Idle => entry(k),
        _ => p,
    }
}

// The access that a thread makes, by where it stands.
// stays: eight parameters, since `access_of` of specs/Step.antt in figures is defined over them.
pub fn access(
    p: Point,
    t: ThreadId,
    o: OpId,
    k: Call,
    threads: u8,
    seen: &[Counts; THREADS],
    s: Sight,
    c: Content,
) -> Move
    ensures { result ≡ access_of p t o k threads seen.now s c }
{
    match p {
        Point::Idle => goes_to(Point::Idle),
        Point::ReadSlot => read_slot(k, c),
        Point::Updating(q, u, a) => updating(q, u, a, s),
        Point::CountInsertions => count_insertions(s),
        Point::Link(g) => link(t, o, g, c),
        Point::HelpUnlink(n, d) => help_unlink(n, d, c),
        Point::CountDeletions(n) => count_deletions(n, s),
        Point::Mark(n, g) => mark(t, o, n, g, c),
        Point::Unlink(n, d) => unlink(n, d, c),
        Point::Sizing(q) => sizing(q, threads, seen, s),
    }
}

// Lines 22, 35 and 85: the thread's own counter of this kind.
fn own_count(t: ThreadId, k: Kind) -> Request
    ensures { result ≡ Count (record { thread = t; kind = k }) }
{
    Request::Count(Cell { thread: t, kind: k })
}

// What an access of thread t asks of the counters and of the table of snapshots, by where the thread stands, which snapshot is current,
// and the values `seen` that the thread has read for its sum.
pub fn request(p: Point, t: ThreadId, current: SnapshotId, seen: &[Counts; THREADS]) -> Request
    ensures { result ≡ request_at p t current seen.now }
{
    match p {
        Point::Updating(q, u, _) => update_request(q, cell_of(u), u.node.note.1),
        Point::CountInsertions => own_count(t, Kind::Insertion),
        Point::CountDeletions(_) => own_count(t, Kind::Deletion),
        Point::Sizing(q) => size_request(q, current, seen),
        Point::Idle
        | Point::ReadSlot
        | Point::Link(_)
        | Point::HelpUnlink(_, _)
        | Point::Mark(_, _)
        | Point::Unlink(_, _) => Request::Nothing,
    }
}
