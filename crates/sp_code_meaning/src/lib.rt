//! The text of code: what bodies and units do that keep all that they see among their locals, with operands the last first.
#![tactic(auto)]
