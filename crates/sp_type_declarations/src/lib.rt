//! Rows of the typed list beside its units, hooks, constants and enums: functions, bitfields, aliases, byte orders of modules, and
//! conversions that are made of themselves; and the priorities of hooks.
#![tactic(auto)]

mod alias_rows;
mod bitfield_rows;
mod conversion_rows;
mod function_rows;
mod order_rows;
mod ranks;

pub use alias_rows::aliases;
pub use bitfield_rows::bitfields;
pub use conversion_rows::conversions;
pub use function_rows::functions;
pub use order_rows::orders;
pub use ranks::SignedNumbers;
