//! Laws of texts and documents: functions without a body, whose contracts are facts about the
//! definitions. A caller gains the facts by the call.

ghost use Rattle.std.specs.Prelude.{◌≡◌, ℕ, List};
ghost use Rattle.std.specs.List.{All};
ghost use Rattle.bspl_parser.specs.declared.document.Document.{Document};
ghost use Rattle.bspl_parser.specs.Alike.{AreAlike, ReadsBack, WordsAreEqual};
ghost use Rattle.bspl_parser.specs.Judgement.{IsText, IsBadSyntax, AreExclusive};
ghost use Rattle.bspl_parser.specs.Layout.{printed};
ghost use Rattle.bspl_parser.specs.declared.token.Token.{Token};
ghost use Rattle.bspl_parser.specs.Separated.{HasWords, IsNameOrParen, space_separated};
ghost use Rattle.bspl_parser.specs.Spelling.{IsDocument};
ghost use Rattle.bspl_parser.specs.Tokens.{IsBadByte, Tokens};

/// A law: a text spells one document at most, it has one first bad byte at most and one offset of
/// bad syntax at most, and it has only one of these three.
pub fn answers_once()
    ensures documents { (text : List ℕ) (d e : Document)
        → IsText text d → IsText text e → d ≡ e }
    ensures bytes { (text : List ℕ) (a b : ℕ) → IsBadByte text a → IsBadByte text b → a ≡ b }
    ensures tokens { (text : List ℕ) (a b : ℕ)
        → IsBadSyntax text a → IsBadSyntax text b → a ≡ b }
    ensures exclusive { (text : List ℕ) (a b : ℕ) (d : Document)
        → AreExclusive (IsText text d) (IsBadByte text a) (IsBadSyntax text b) }
{}

/// A law: what a text spells is well formed; the layout of a well-formed document is read back,
/// as a document that is equal to it but for offsets, and spells no other.
pub fn reads_back()
    ensures formed { (text : List ℕ) (d : Document) → IsText text d → IsDocument d }
    ensures read { (d : Document) → IsDocument d → ReadsBack (printed d) d }
    ensures alike { (d e : Document) → IsDocument d → IsText (printed d) e → AreAlike d e }
{}

/// A law: two words of one text and one offset are equal.
pub fn equal_words()
    ensures { WordsAreEqual }
{}

/// A law: a text has one list of tokens at most, one first bad byte at most, and not both.
pub fn tokens_once()
    ensures tokens { (text : List ℕ) (ts us : List Token)
        → Tokens text ts → Tokens text us → ts ≡ us }
    ensures bytes { (text : List ℕ) (a b : ℕ) → IsBadByte text a → IsBadByte text b → a ≡ b }
    ensures exclusive { (text : List ℕ) (a : ℕ) (ts : List Token)
        → IsBadByte text a → ¬ Tokens text ts }
{}

/// A law: names and parentheses with one space between each two are read as these tokens.
pub fn spaced_tokens()
    ensures { (words : List (List ℕ))
        → All IsNameOrParen words → HasWords (space_separated words) words }
{}
