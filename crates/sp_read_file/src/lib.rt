//! A file is read as a module: its tree, or what is wrong with it.
#![tactic(auto)]

mod files;
mod unread;

pub use files::{read_file, read_text, refused};
pub use unread::Unread;
