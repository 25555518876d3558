// What fprun replies to an input: from its bytes to the bytes that are printed.
#![tactic(auto)]

mod answering;
mod buffers;

pub use answering::answer_input;
pub use buffers::reply;
