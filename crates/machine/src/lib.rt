// A step of a thread and a whole schedule, over counters and a table of snapshots that are lent: what the thread asks of these, the one
// access, and what follows from the number heard. What an access changes, part by part, is in parts.rt. What each must yield is defined
// in the crate `figures`.
#![tactic(auto)]

mod parts;

ghost use Rattle.std.specs.Prelude.{◌≡◌, true, ◌<◌, get_or, set};
ghost use Rattle.figures.specs.Limits.{most_threads};
ghost use Rattle.figures.specs.Step.{no_record, no_slot, step_of, run_of};
ghost use Rattle.calculator.specs.Requests.{traces_by};
ghost use Rattle.machine.specs.Parts.{recorded_by, raised_by, held_by, local_in, whole_of, rest_of, is_busy, window_now, asks_of, move_in, request_of, taken_by, idled_of, decided_of};

use accesses::{access, request, stands_at};
use calculator::figure4::{sight_by, window_of};
use calculator::request::Request;
use figures::{
    Asked, Calculator, Content, Counts, Deed, KEYS, Local, Machine, Move, Record, SNAPSHOTS, Slot,
    Snapshot, THREADS, Trace, UpdateDeed, no_record,
};
use lending::perform;
use parts::{held_after, raised_at, recorded, stood};
use terms::{OpId, SnapshotId, ThreadId};

// A machine without its counters and its table of snapshots, which may be lent.
#[derive(Clone, Copy)]
pub struct Rest {
    pub threads: u8,
    pub keys: u8,
    pub clock: u32,
    pub idle: u32,
    pub current: SnapshotId,
    pub traces: [Trace; SNAPSHOTS],
    pub slots: [Slot; KEYS],
    pub locals: [Local; THREADS],
    pub records: [Record; Machine::OPERATIONS],
}

// stays: `rest_of(m)`, and `whole_of`: `Rest::from(m)` is no plainer, since it would say that nothing is left out.
pub fn rest_of(m: Machine) -> Rest
    ensures { result ≡ rest_of m }
{
    let Machine {
        threads,
        keys,
        clock,
        idle,
        calculator: Calculator {
            current,
            traces,
            ..
        },
        slots,
        locals,
        records,
    } = m;
    Rest {
        threads,
        keys,
        clock,
        idle,
        current,
        traces,
        slots,
        locals,
        records,
    }
}

pub fn whole_of(m: Rest, counters: [Counts; THREADS], table: [Snapshot; SNAPSHOTS]) -> Machine
    ensures { result ≡ whole_of m counters table }
{
    let Rest {
        threads,
        keys,
        clock,
        idle,
        current,
        traces,
        slots,
        locals,
        records,
    } = m;
    Machine {
        threads,
        keys,
        clock,
        idle,
        calculator: Calculator {
            counters,
            current,
            snapshots: table,
            traces,
        },
        slots,
        locals,
        records,
    }
}

impl Rest {
    // Whether thread t is there and has an operation left.
    fn is_busy(&self, t: ThreadId) -> bool
        ensures value { result ≡ is_busy self.now t }
        ensures there { result ≡ true → t.0 < most_threads }
    {
        self.locals
            .get(usize::from(t.0))
            .is_some_and(|l| l.op < l.end)
    }

    fn record_in(&self, o: OpId) -> Record
        ensures { result ≡ get_or self.now.records o.0 no_record }
    {
        self.records
            .get(usize::from(o.0))
            .copied()
            .unwrap_or_default()
    }

    fn content_in(&self, key: u8) -> Content
        ensures { result ≡ (get_or self.now.slots key no_slot).content }
    {
        self.slots
            .get(usize::from(key))
            .map_or(Content::Empty, |s| s.content)
    }

    // The snapshot that is being collected.
    fn window(&self) -> SnapshotId
        ensures { result ≡ window_now self.now }
    {
        let closed = self
            .traces
            .get(usize::from(self.current.0))
            .map_or(0, |t| t.closed);
        window_of(self.current, closed)
    }

    // What the access of a thread asks that is there.
    fn request_in(&self, t: ThreadId) -> Request
        requires { t.0 < most_threads }
        ensures { result ≡ asks_of self.now t }
    {
        let l = &self.locals[usize::from(t.0)];
        let p = stands_at(l.point, self.record_in(l.op).asked.call);
        request(p, t, self.current, &l.seen)
    }

    // The access itself, which heard this number.
    fn move_in(&self, t: ThreadId, heard: u32) -> Move
        requires { t.0 < most_threads }
        ensures { result ≡ move_in self.now t heard }
    {
        let l = &self.locals[usize::from(t.0)];
        let Asked { call, key, .. } = self.record_in(l.op).asked;
        let p = stands_at(l.point, call);
        let s = sight_by(heard, self.current);
        access(
            p,
            t,
            l.op,
            call,
            self.threads,
            &l.seen,
            s,
            self.content_in(key),
        )
    }

    // The first half of a step of thread t: what it asks of the counters and of the table.
    pub fn asked(&self, t: ThreadId) -> Request
        ensures { result ≡ request_of self.now t }
    {
        if self.is_busy(t) {
            self.request_in(t)
        } else {
            Request::Nothing
        }
    }

    // What the turn tells of its own operation. Nothing is stored beyond an array's end.
    // stays: a test and an index, in this and the three stores below, since of what is written through a slice's `get_mut` a proof knows
    // no element
    fn record_turn(&mut self, o: OpId, v: Move)
        ensures { self.new ≡ record self.old { records = set self.old.records o.0 (recorded_by self.old.clock v.deed v.next (get_or self.old.records o.0 no_record)) } }
    {
        let k = usize::from(o.0);
        if k < self.records.len() {
            recorded(&mut self.records[k], self.clock, v);
        }
    }

    // Of the operation that thread t raises, whose ever it is, while snapshot w is being collected.
    fn record_raising(&mut self, d: Deed, w: SnapshotId, t: ThreadId)
        ensures { self.new ≡ record self.old { records = raised_by d self.old.clock w t self.old.records } }
    {
        if let Deed::Updates(UpdateDeed::Raises, u) = d {
            let k = usize::from(u.node.op.0);
            if k < self.records.len() {
                raised_at(&mut self.records[k], self.clock, w, t);
            }
        }
    }

    fn store_content(&mut self, key: u8, content: Content)
        ensures { self.new ≡ record self.old { slots = set self.old.slots key (record { content = content }) } }
    {
        let k = usize::from(key);
        if k < self.slots.len() {
            self.slots[k].content = content;
        }
    }

    // The slot of this key after a deed. Most deeds leave it as it is, and store nothing.
    #[tactic(auto, using(crate::proofs::Kept::kept_slot))]
    fn store_held(&mut self, key: u8, d: Deed)
        ensures { self.new ≡ record self.old { slots = set self.old.slots key (record { content = held_by d (get_or self.old.slots key no_slot).content }) } }
    {
        match d {
            Deed::Links(_) | Deed::Marks(_, _) | Deed::Unlinks => {
                let held = self.content_in(key);
                self.store_content(key, held_after(held, d));
            }
            Deed::Rests | Deed::Finds(_) | Deed::Updates(_, _) | Deed::Sizes(_) => {}
        }
    }

    // What the log needs of the record that is asked for, by a thread that is there, with the values that it has read. Only an exchange
    // tells the log anything, so for no other request are these values looked at.
    #[tactic(auto, using(crate::proofs::Kept::kept_trace))]
    fn trace_request(&mut self, q: Request, heard: u32, t: ThreadId)
        requires { t.0 < most_threads }
        ensures { self.new ≡ record self.old { traces = traces_by q heard self.old.clock (local_in self.old t).seen self.old.traces } }
    {
        if let Request::Exchanges(_, _) = q {
            let k = usize::from(q.record_of().0);
            if k < self.traces.len() {
                let seen = &self.locals[usize::from(t.0)].seen;
                q.trace_by(heard, self.clock, seen, &mut self.traces[k]);
            }
        }
    }

    // The second half for a thread with an operation left, whose access asked this and heard this number.
    fn taken(&mut self, t: ThreadId, q: Request, heard: u32)
        requires { t.0 < most_threads }
        ensures { self.new ≡ taken_by (move_in self.old t heard) q heard t self.old }
    {
        self.clock = self.clock.wrapping_add(1);
        let v = self.move_in(t, heard);
        let w = self.window();
        let k = usize::from(t.0);
        let o = self.locals[k].op;
        let key = self.record_in(o).asked.key;
        self.record_turn(o, v);
        self.record_raising(v.deed, w, t);
        self.store_held(key, v.deed);
        self.trace_request(q, heard, t);
        self.current = q.current_by(self.current);
        stood(&mut self.locals[k], v);
    }

    // For a thread with none left.
    fn idled(&mut self)
        ensures { self.new ≡ idled_of self.old }
    {
        self.clock = self.clock.wrapping_add(1);
        self.idle = self.idle.wrapping_add(1);
    }

    // The second half of a step of thread t, which heard this number of what it asked for.
    pub fn decided(&mut self, t: ThreadId, heard: u32)
        ensures { self.new ≡ decided_of self.old t heard }
    {
        if self.is_busy(t) {
            let q = self.request_in(t);
            self.taken(t, q, heard);
        } else {
            self.idled();
        }
    }
}

// A step of thread t: what it asks for, the one access, and what follows from the number heard. A thread with no operation left asks for
// nothing, and is told apart at once: many steps of a long schedule are idle.
// stays: table, counters and rest side by side, here and in `play_lent`: docs/DECISIONS.md names both as functions over what is lent, and
// each of the three has a lender of its own.
#[tactic(auto, using(crate::proofs::Turns::decided_steps, crate::proofs::Turns::idle_steps))]
pub fn step_lent(table: &mut [Snapshot], block: &mut [Counts; THREADS], m: &mut Rest, t: ThreadId)
    ensures { whole_of m.new block.new table.new ≡ step_of (whole_of m.old block.old table.old) t }
{
    if m.is_busy(t) {
        let q = m.asked(t);
        let heard = perform(table, block, q);
        m.decided(t, heard);
    } else {
        m.idled();
    }
}

// A whole schedule.
#[tactic(auto, unfolding(figures::specs::Step::run_of))]
pub fn play_lent(
    table: &mut [Snapshot],
    block: &mut [Counts; THREADS],
    m: &mut Rest,
    schedule: &[u8],
)
    ensures { whole_of m.new block.new table.new ≡ run_of (whole_of m.old block.old table.old) schedule.now }
{
    for t in schedule {
        step_lent(table, block, m, ThreadId(*t));
    }
}

// A whole schedule, over the machine's own counters and table.
pub fn play(machine: Machine, schedule: &[u8]) -> Machine
    ensures { result ≡ run_of machine schedule.now }
{
    let mut counters = machine.calculator.counters;
    let mut table = machine.calculator.snapshots;
    let mut m = rest_of(machine);
    play_lent(&mut table, &mut counters, &mut m, schedule);
    whole_of(m, counters, table)
}

// One step: the schedule of that thread alone.
#[tactic(auto, unfolding(figures::specs::Step::run_of))]
pub fn step(m: Machine, t: ThreadId) -> Machine
    ensures { result ≡ step_of m t }
{
    play(m, &[t.0])
}
