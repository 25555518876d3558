// Evaluation of linked forms on cells, by the definition of the metered run.
#![tactic(auto)]

pub mod alone;
pub mod cycle;
pub mod records;
pub mod run;
pub mod waiting;
