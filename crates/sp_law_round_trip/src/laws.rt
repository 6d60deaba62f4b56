// A module that was read, its words, and its canonical text.
ghost use Rattle.std.specs.Prelude.{◌≡◌, ◌≤◌, List, None, flat_map, length};
ghost use Rattle.std.specs.List.{AllByRecursion};
ghost use Rattle.sp_base.specs.declared.kinds.MKind.{MKind};
ghost use Rattle.sp_base.specs.declared.kinds.MKind.TheVariants as module_kind;
ghost use Rattle.sp_base.specs.declared.places.Span.{Span};
ghost use Rattle.sp_lex.specs.Faults.{IsFault, most_bytes};
ghost use Rattle.sp_lex.specs.Lexed.{Lexed, IsLexed};
ghost use Rattle.sp_lex.specs.declared.tokens.Token.{Token};
ghost use Rattle.sp_ast.specs.Trees.{Tree};
ghost use Rattle.sp_read_unit.specs.Modules.{IsModuleTree};
ghost use Rattle.sp_print.specs.Canonical.{canonical};
ghost use Rattle.sp_law_printed_words.specs.Modules.{module_lines};
ghost use Rattle.sp_law_printed_words.specs.Sound.{ArePlaced, HaveNoZero, IsSound};
ghost use Rattle.sp_law_round_trip.specs.Bare.{bare};
ghost use Rattle.sp_law_round_trip.specs.Kept.{kept, words_told};
ghost use Rattle.sp_law_round_trip.specs.ReadAs.{IsReadAs, IsTooDeep};
ghost use Rattle.sp_law_round_trip.specs.Told.{told};

/// Two texts whose tokens tell the same are the same module, apart from the places of its parts: white space, comments,
/// the base of numbers and the way in which literals are escaped make no difference.
pub fn trees_are_of_words()
    ensures { (first second : Lexed) (t : Tree) → told first ≡ told second → IsModuleTree first t
        → (u : Tree) × IsModuleTree second u × (bare t ≡ bare u) }
{}

/// Each word of the canonical text of a module that was read can be read again, and has no byte 0.
pub fn words_of_a_read_module_are_sound()
    ensures sound { (lexed : Lexed) (m : Tree) → IsLexed lexed.text lexed.list
        → IsModuleTree lexed m → AllByRecursion (AllByRecursion IsSound) (module_lines m) }
    ensures no_zero { (lexed : Lexed) (m : Tree) → IsLexed lexed.text lexed.list
        → IsModuleTree lexed m → HaveNoZero (module_lines m) }
{}

/// Each word of the canonical text of a module that was read stands where it may.
pub fn words_of_a_read_module_are_placed()
    ensures { (lexed : Lexed) (m : Tree) → IsLexed lexed.text lexed.list → IsModuleTree lexed m
        → AllByRecursion (ArePlaced None) (module_lines m) }
{}

/// The canonical text of a module that was read, where it is not too large and not nested too deep, is read as the same
/// module, apart from the places of its parts. Whatever tokens it has are those of that module; and if it is not too large,
/// nothing can be wrong with it but that it is nested too deep.
pub fn canonical_text_reads_back()
    ensures reads_back { (lexed : Lexed) (m : Tree) → IsLexed lexed.text lexed.list
        → IsModuleTree lexed m → length (canonical m) ≤ most_bytes → ¬ IsTooDeep (canonical m)
        → (u : Tree) × IsReadAs (canonical m) u × (bare u ≡ bare m) }
    ensures same { (lexed : Lexed) (m : Tree) → IsLexed lexed.text lexed.list → IsModuleTree lexed m
        → (tokens : List Token) → IsLexed (canonical m) tokens → (u : Tree)
        × IsModuleTree (record { text = canonical m; list = tokens }) u × (bare u ≡ bare m) }
    ensures no_other_fault { (lexed : Lexed) (m : Tree) → IsLexed lexed.text lexed.list
        → IsModuleTree lexed m → length (canonical m) ≤ most_bytes → (span : Span) (kind : MKind)
        → IsFault (canonical m) span kind → kind ≡ module_kind.TooDeep }
{}

/// No word is lost, added or moved: what the tokens of a module's text tell, what the words of its canonical text tell, and
/// what the tokens of that text tell are the same, in their order, but for `(`, `)`, `;` and `,`, where a `>>` is two `>`.
pub fn no_word_is_lost()
    ensures words { (lexed : Lexed) (m : Tree) → IsLexed lexed.text lexed.list
        → IsModuleTree lexed m → kept (words_told (told lexed)) ≡ kept
        (flat_map (λ ws. ws) (module_lines m)) }
    ensures tokens { (lexed : Lexed) (m : Tree) → IsLexed lexed.text lexed.list
        → IsModuleTree lexed m → (tokens : List Token) → IsLexed (canonical m) tokens
        → kept (words_told (told lexed)) ≡ kept
        (words_told (told (record { text = canonical m; list = tokens }))) }
{}
