// The calls open to others.
#![tactic(auto)]

mod answers;
mod calls;
mod ends;
mod texts;

pub use calls::run;
