// The small numbers of document 01, each of its own type, so that passing one for another is caught by the checker.
// stays: `.0` where an array is indexed or a number compared: a `From` to it is no plainer, and would take any of them for an index.
#![tactic(auto)]

// A thread, 0 to 7.
#[derive(Clone, Copy, Debug, PartialEq, Eq, Default)]
pub struct ThreadId(pub u8);

// An operation's number in file order, 0 to 63; 64 where the last thread's operations end.
#[derive(Clone, Copy, Debug, PartialEq, Eq, PartialOrd, Ord, Default)]
pub struct OpId(pub u8);

// A snapshot record's number; 0 is the record that is announced at the start.
#[derive(Clone, Copy, Debug, PartialEq, Eq, Default)]
pub struct SnapshotId(pub u8);

// The value that an update brings its counter to (figure 4, UpdateInfo.counter).
#[derive(Clone, Copy, Debug, PartialEq, Eq, Default)]
pub struct Target(pub u32);

// The update note (figure 4, lines 42 to 44, UpdateInfo): whose counter, and the target.
#[derive(Clone, Copy, Debug, PartialEq, Eq, Default)]
pub struct Note(pub ThreadId, pub Target);
