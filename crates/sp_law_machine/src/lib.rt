//! Laws on the plain machine: each step of sound code keeps it sound, it goes on with more of an input as if it had had all at first, and its
//! runs end. A module of laws for each.
//! There is no code here, and so no edit that must fail.
#![tactic(auto)]

mod continues;
mod ends;
mod keeps;

pub use continues::{
    marks_serve, places_stay, reads_continue, runs_continue, steps_continue, windows_run,
    windows_serve,
};
pub use ends::{heights_fall, runs_end, steps_fall, window_steps_fall};
pub use keeps::{instructions_can, steps_keep};
