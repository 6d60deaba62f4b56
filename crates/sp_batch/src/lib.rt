//! The text of a batch: its header and its records, read one after another.
#![tactic(auto)]

mod heads;
mod laws;
mod reading;
mod record;
mod words;

pub use laws::{law_of_batches, law_of_records};
pub use reading::{read_header, read_record};
pub use record::{BatchFault, Record};
