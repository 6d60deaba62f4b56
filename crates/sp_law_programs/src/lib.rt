//! Laws on whole programs: what bodies and units mean is finished, what a machine that runs a unit has told is what the unit means, and the
//! program of a list of modules is laid out so that it runs each of its units. A module of laws for each, the lowest first.
//! There is no code here, and so no edit that must fail.
#![tactic(auto)]

mod finished_bodies;
mod finished_units;
mod list_runs;
mod program_laid;
mod unit_told;
mod whole_program;

pub use finished_bodies::{fuel_suffices, more_fuel_is_the_same, turns_are_enough};
pub use finished_units::{
    ended_inputs_decide, feeds_tell, fuels_agree, meanings_are_reached, meanings_end,
    meanings_stay, stops_tell, units_are_decided_by_turns, units_are_finished,
    units_are_the_same_at_more,
};
pub use list_runs::{
    compiled_lists_run, functions_fit_as_called, hooks_fit_as_run, list_ended_inputs_decide,
    list_feeds_tell, list_meanings_are_reached, list_meanings_end, list_meanings_stay,
    list_stops_tell, meanings_are_the_lists, programs_run, runnable_units_run, units_are_runnable,
    units_take_none,
};
pub use program_laid::{
    fitting_bodies_keep_to_loops, laid_functions_enter, laid_hooks_enter, laid_programs_are_sound,
    laid_programs_count, laid_programs_have_bodies, laid_programs_turn, what_follows_stands,
    what_stands_is_laid,
};
pub use unit_told::{
    ended_decides, ended_steps_decide, ends_are_exact, feeds_are_meant, meanings_are_told,
    runs_go_on, runs_pass, started_keeps, starters_keep, stops_are_meant, stops_are_one,
    told_stays, units_end,
};
pub use whole_program::{
    compiled_lists_are_sound, currents_are_listed, fitting_programs_are_sound,
    fitting_programs_start, functions_are_entered, listed_calls_count, listed_units_fit,
    members_are_listed, programs_are_sound, programs_have_bodies, programs_have_starters,
    programs_have_units, programs_turn, starters_are_last, units_have_kinds, units_mean_theirs,
    what_stands_is_the_program,
};
