//! Plain types that all crates share: bytes, texts, places, limits, and the kinds of refusals and errors.
#![tactic(auto)]

mod bytes;
mod drops;
mod kinds;
mod lines;
mod places;
mod resources;
mod text;

pub use bytes::{ByteList, NoMemory};
pub use kinds::{BKind, MKind, PKind};
pub use lines::place_of;
pub use places::{Diag, Limits, ParseError, Place, Span};
pub use resources::ResourceError;
pub use text::Text;
