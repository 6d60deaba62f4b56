//! Laws of printed words: the text of words is read as the tokens that they are. There is no code here, and so no edit that
//! must fail: what the laws speak of is computed in `sp_lex` and `sp_print`, which have such edits.
#![tactic(auto)]

mod laws;

pub use laws::{
    canonical_text_is_of_words, words_are_read, words_have_no_other_fault, words_keep_their_worth,
    words_of_a_module_are_placed, words_of_a_module_are_sound, words_of_a_text_are_sound,
};
