// The code of figures 4 to 6, the size calculator: one function per access, named after it. What each must yield is defined in
// the crate `figures`; an access is told what it sees and says where the thread goes on and what it changes, and the functions
// of figure4.rt read the calculator's fields. request.rt says what an access asks of memory before anything is read, and exchange.rt
// has an exchange over a part of memory.
#![tactic(auto)]

pub mod exchange;
pub mod figure4;
pub mod figure5;
pub mod figure6;
pub mod request;
