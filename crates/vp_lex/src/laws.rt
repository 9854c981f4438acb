//! Laws of the tokens: the contracts of these functions say them, and their bodies do nothing.
ghost use Rattle.std.specs.Prelude.{◌≡◌, ℕ, List, Result};
ghost use Rattle.vp_lex.specs.Reserved.{word_text};
ghost use Rattle.vp_lex.specs.Tokens.{Tokenizes};
ghost use Rattle.vp_lex.specs.declared.token.Token.{Token};
ghost use Rattle.vp_lex.specs.declared.word.ReservedWord.{ReservedWord};

/// A text has one list of tokens, or one first byte in no token, and never both.
pub fn one_tokenization()
    ensures { (text : List ℕ) (r s : Result (List Token) ℕ) → Tokenizes text r → Tokenizes text s → r ≡ s }
{}

/// No two reserved words are spelled alike.
pub fn one_spelling()
    ensures { (v w : ReservedWord) → word_text v ≡ word_text w → v ≡ w }
{}
