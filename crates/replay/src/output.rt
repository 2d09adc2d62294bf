// What `replay` says of a file of records.
pub mod report;
pub mod tally;

pub use tally::Tally;
