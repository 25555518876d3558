// Sequences made in new cells. What is read is read from the front, place after place. Places that keep their order are
// written from the first to the last, each leading to a cell further on; others are put before those made already.
#![tactic(auto)]

mod lines;
mod orders;
mod pairs;
mod places;
mod rows;

pub use orders::{left_turned, right_turned, turned, without_last};
pub use pairs::shared;
pub use places::{prepended, put_before};
pub use rows::{are_rows, columns};
