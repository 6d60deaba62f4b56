//! What the canonical text of a module has to do with the module. There is no code here, and so no edit that must fail: what
//! the laws speak of is computed in `sp_lex`, `sp_build`, `sp_read_unit` and `sp_print`, which have such edits. A layout that
//! leaves out a word, in the code and its definition alike, is refused here.
#![tactic(auto)]

mod laws;

pub use laws::{
    canonical_text_reads_back, no_word_is_lost, trees_are_of_words,
    words_of_a_read_module_are_placed, words_of_a_read_module_are_sound,
};
