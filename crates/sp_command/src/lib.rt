//! What the commands have in common: how a module is refused, what is put, which words can be files, and directories in one word.
#![tactic(auto)]

mod directories;
mod puts;
mod refusal;
mod words;

pub use directories::directories_of;
pub use puts::{failure_status, put_text};
pub use refusal::Refusal;
pub use words::is_path;
