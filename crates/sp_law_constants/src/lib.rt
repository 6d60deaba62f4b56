//! Laws on constants: what the checker takes a constant expression for is what bodies make of it.
//! There is no code here.
#![tactic(auto)]

mod constants;
mod declared;
mod lists;

pub use constants::constants_are_meant;
pub use declared::declared_are_meant;
pub use lists::lists_agree;
