// What is read of a record that stands: the receipt check, the announced votes, their tally, and the lines of the page.
#![tactic(auto)]

pub mod page;
pub mod receipts;
pub mod tally;
pub mod votes;
