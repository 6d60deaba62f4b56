//! What a run keeps, how parts of a unit end, what open constructs do with an end, and what is read
//! of an input. Definitions on which both the meaning of bodies and the machine stand.
#![tactic(auto)]
