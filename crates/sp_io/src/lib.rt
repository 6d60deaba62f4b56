//! What programs ask of their outside: modules, sources and outputs, each a trait with a count of faults.
//! Beside the traits stand objects in memory and adapters over the real thing.
#![tactic(auto)]

mod calls;
mod files;
mod folders;
mod outs;
mod pieces;
mod sources;
mod streams;
mod traits;

pub use files::{MemModules, SureModules};
pub use folders::DirModules;
pub use outs::{MemOut, SureOut};
pub use sources::{MemSource, SureSource};
pub use streams::{FileSource, StdOut, StdSource};
pub use traits::{Modules, ModulesFault, Out, OutFault, Source, SourceFault, Took, put_all};
