// The plain set, the order of a log and its replay, and the demand on a run, whatever machine played it. Definitions stand in
// specs/, theorems in proofs/; of code there is the type of a place.
#![tactic(auto)]

// Where an operation stands in the log: at a step; there, sizes (rank 0) before all others (rank 1); then by `tie`, which parts those
// of one rank (sizes by thread, updates by the step of their change), and an update (0) before those that found it, by their read
// (`read`).
// stays: the ranks are numbers, since `number_of` (placed) makes one number of a place, by which the log is ordered.
#[derive(Clone, Copy)]
pub struct Place {
    pub step: u32,
    pub rank: u32,
    pub tie: u32,
    pub read: u32,
}
