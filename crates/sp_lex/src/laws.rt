// Laws of tokens: how long they are, what stands between them, and which words there are.
ghost use Rattle.std.specs.Prelude.{◌≡◌, ◌<◌, ℕ, List, length, true, false};
ghost use Rattle.std.specs.List.{AllByRecursion, list_all};
ghost use Rattle.sp_base.specs.declared.kinds.MKind.{MKind};
ghost use Rattle.sp_base.specs.declared.places.Span.{Span};
ghost use Rattle.sp_lex.specs.Faults.{IsFault};
ghost use Rattle.sp_lex.specs.Gaps.{AreSpaced};
ghost use Rattle.sp_lex.specs.Lexed.{IsLexed};
ghost use Rattle.sp_lex.specs.Listed.{IsListedOnce, is_no_word};
ghost use Rattle.sp_lex.specs.Readings.{bytes_of};
ghost use Rattle.sp_lex.specs.Signs.{is_spelled};
ghost use Rattle.sp_lex.specs.Spellings.{reserved_words, signs, spelling};
ghost use Rattle.sp_lex.specs.Written.{is_number_text, is_word_kind, is_word_text, IsLongestText};
ghost use Rattle.sp_lex.specs.declared.kinds.TokenKind.{TokenKind};
ghost use Rattle.sp_lex.specs.declared.kinds.TokenKind.TheVariants as token_kind;
ghost use Rattle.sp_lex.specs.declared.tokens.Token.{Token};

/// A name or a reserved word is the longest word at its place.
pub fn words_are_longest()
    ensures { (text : List ℕ) (tokens : List Token) → IsLexed text tokens
        → AllByRecursion (λ token. is_word_kind token.kind ≡ true
        → IsLongestText is_word_text text token) tokens }
{}

/// A number is the longest one at its place.
pub fn numbers_are_longest()
    ensures { (text : List ℕ) (tokens : List Token) → IsLexed text tokens
        → AllByRecursion (λ token. token.kind ≡ token_kind.Number
        → IsLongestText is_number_text text token) tokens }
{}

/// Only white space and comments stand before, between and behind the tokens.
pub fn only_blanks_stand_between()
    ensures { (text : List ℕ) (tokens : List Token) → IsLexed text tokens
        → AreSpaced text 0 tokens }
{}

/// Each kind of token that has a text of its own stands once in the two lists, that of the reserved words or that of the
/// punctuation; the reserved words are words, and punctuation is none.
pub fn kinds_are_listed_once()
    ensures once { (kind : TokenKind) → 0 < length (spelling kind) → IsListedOnce kind }
    ensures words { list_all (λ kind. is_word_text (spelling kind)) reserved_words ≡ true }
    ensures punctuation { list_all is_no_word signs ≡ true }
{}

/// A name is none of the reserved words.
pub fn names_are_not_reserved()
    ensures { (text : List ℕ) (tokens : List Token) → IsLexed text tokens
        → AllByRecursion (λ token. token.kind ≡ token_kind.Id
        → AllByRecursion (λ kind. is_spelled (bytes_of text token) kind ≡ false) reserved_words)
        tokens }
{}

/// A text without a fault has its tokens.
pub fn faultless_texts_have_tokens()
    ensures { (text : List ℕ) → ((span : Span) (kind : MKind) → ¬ IsFault text span kind)
        → (tokens : List Token) × IsLexed text tokens }
{}
