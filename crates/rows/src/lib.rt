// Rows of lines, as a ticket or a yes has them.
#![tactic(auto)]

mod adding;
mod each;
mod reader;
mod reading;
mod row;
mod same;

pub use adding::most_lines;
pub use each::Each;
pub use reader::Reader;
pub use row::Lines;
