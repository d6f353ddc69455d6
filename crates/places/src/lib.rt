// Where each operation stands in the log (rules.rt), and the log itself, which is written to a lent buffer (writing.rt).
// What each must yield is defined in the crates `figures` (specs/Places.antt) and `history` (specs/Order.antt); of the rules,
// specs/Parts.antt has the same told of the parts of a machine that each reads.
#![tactic(auto)]

pub mod rules;
pub mod writing;
