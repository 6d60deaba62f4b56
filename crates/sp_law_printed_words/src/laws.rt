// What is read from words that are written one behind the other.
ghost use Rattle.std.specs.Prelude.{◌≡◌, ◌<◌, ◌≤◌, ℕ, List, None, length};
ghost use Rattle.std.specs.List.{AllByRecursion};
ghost use Rattle.sp_base.specs.declared.kinds.MKind.{MKind};
ghost use Rattle.sp_base.specs.declared.kinds.MKind.TheVariants as module_kind;
ghost use Rattle.sp_base.specs.declared.places.Span.{Span};
ghost use Rattle.sp_lex.specs.Faults.{IsFault, most_bytes};
ghost use Rattle.sp_lex.specs.Lexed.{IsLexed};
ghost use Rattle.sp_lex.specs.Readings.{bytes_of};
ghost use Rattle.sp_lex.specs.declared.tokens.Token.{Token};
ghost use Rattle.sp_literals.specs.Values.{numbered};
ghost use Rattle.sp_ast.specs.Trees.{Tree};
ghost use Rattle.sp_print.specs.Canonical.{canonical};
ghost use Rattle.sp_print.specs.Words.{Word, written};
ghost use Rattle.sp_law_printed_words.specs.Formed.{IsFormedModule};
ghost use Rattle.sp_law_printed_words.specs.Modules.{module_lines};
ghost use Rattle.sp_law_printed_words.specs.Read.{text_of, AreRead, IsWorth};
ghost use Rattle.sp_law_printed_words.specs.Sound.{ArePlaced, AreSound, HasNoZero, HaveNoZero, IsSound};
ghost use Rattle.sp_law_printed_words.specs.Told.{IsTold};
ghost use Rattle.sp_law_printed_words.specs.Trees.{TellsOnly};

/// Lines of words that can be read again are read as these words: each word is one token of its kind, with its bytes.
pub fn words_are_read()
    ensures { (lines : List (List Word)) → AreSound lines → (tokens : List Token)
        × AreRead lines tokens }
{}

/// What the bytes of a written word are worth is what the word says.
pub fn words_keep_their_worth()
    ensures { (w : Word) → IsSound w → IsWorth w (written w) }
{}

/// Nothing is wrong with the text of words that can be read again, if it is not too large, but that it may be nested too deep.
pub fn words_have_no_other_fault()
    ensures { (lines : List (List Word)) → AreSound lines → HaveNoZero lines
        → length (text_of lines) ≤ most_bytes → (span : Span) (kind : MKind)
        → IsFault (text_of lines) span kind → kind ≡ module_kind.TooDeep }
{}

/// A word that a token of a text tells can be read again, and has no byte 0.
pub fn words_of_a_text_are_sound()
    ensures sound { (text : List ℕ) (tokens : List Token) → IsLexed text tokens → (at : ℕ)
        → at < length tokens → (w : Word)
        → IsTold w (numbered tokens at).kind (bytes_of text (numbered tokens at)) → IsSound w }
    ensures no_zero { (text : List ℕ) (tokens : List Token) → IsLexed text tokens → (at : ℕ)
        → at < length tokens → (w : Word)
        → IsTold w (numbered tokens at).kind (bytes_of text (numbered tokens at)) → HasNoZero w }
{}

/// The canonical text of a module is the text of its words.
pub fn canonical_text_is_of_words()
    ensures { (m : Tree) → canonical m ≡ text_of (module_lines m) }
{}

/// The words of a module can be read again, and have no byte 0, if this holds of those that the alternatives in its tree tell.
pub fn words_of_a_module_are_sound()
    ensures sound { (m : Tree) → TellsOnly IsSound m
        → AllByRecursion (AllByRecursion IsSound) (module_lines m) }
    ensures no_zero { (m : Tree) → TellsOnly HasNoZero m → HaveNoZero (module_lines m) }
{}

/// Each word of a module stands where it may, if the parts of its trees are those that the grammar wants.
pub fn words_of_a_module_are_placed()
    ensures { (m : Tree) → TellsOnly IsSound m → IsFormedModule m
        → AllByRecursion (ArePlaced None) (module_lines m) }
{}
