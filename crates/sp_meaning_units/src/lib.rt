//! What units mean that read all kinds of fields but literals and those that look ahead: fields with their attributes, containers,
//! switches with values, units in units.
#![tactic(auto)]
