//! The text of code of units: fields as pieces, which keep among their locals what is asked later, and what pieces mean.
#![tactic(auto)]
