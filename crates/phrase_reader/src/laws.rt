ghost use Rattle.std.specs.Prelude.{◌≡◌, ◌≤◌, ◌⊎◌, ◌↔◌, ℕ, List, length};
ghost use Rattle.phrase_tree.specs.Term.{Term};
ghost use Rattle.phrase_reader.specs.declared.reader.TheConstants.{TEXT_BYTES};
ghost use Rattle.phrase_reader.specs.declared.refusal.Kind.{Kind};
ghost use Rattle.phrase_tree.specs.Numbering.{IsSized};
ghost use Rattle.phrase_reader.specs.Canonical.{canonical, IsWritable};
ghost use Rattle.phrase_reader.specs.declared.token.Token.{Token};
ghost use Rattle.phrase_reader.specs.Grammar.{IsBranch};
ghost use Rattle.phrase_reader.specs.Refusal.{IsRefusal, IsRead};
ghost use Rattle.phrase_reader.specs.Spelling.{Makes, NoneRefused};
ghost use Rattle.phrase_reader.specs.Tokens.{found, tokens_of};

/// The law of readings: each text is read as a phrase or has a refusal, and it has only one reading: at
/// most one phrase, at most one refusal, and not both. It does nothing.
pub fn reading_law()
    ensures some { (text : List ℕ) →
        ((phrase : Term) × IsRead text phrase) ⊎ ((place : ℕ) × (kind : Kind) × IsRefusal text place kind) }
    ensures phrase { (text : List ℕ) (phrase other : Term) →
        IsRead text phrase → IsRead text other → phrase ≡ other }
    ensures refusal { (text : List ℕ) (place other_place : ℕ) (kind other : Kind) →
        IsRefusal text place kind → IsRefusal text other_place other → (place ≡ other_place) × (kind ≡ other) }
    ensures either { (text : List ℕ) (phrase : Term) (place : ℕ) (kind : Kind) →
        IsRead text phrase → ¬ (IsRefusal text place kind) }
{}

/// The law of the round trip: what `print` writes of a phrase is read as that phrase if it has at most
/// 65,536 bytes. It does nothing.
pub fn print_law()
    ensures { (phrase : Term) → IsSized phrase → IsWritable phrase → length (canonical phrase) ≤ TEXT_BYTES →
        IsRead (canonical phrase) phrase }
{}

/// The law of spellings: a text has just those tokens, none refused, that make it, each by its spelling,
/// with blanks before them and at the end and each word as long as it can be; and a text is read as a
/// phrase that the tokens which make it spell. It does nothing.
pub fn spelling_law()
    ensures tokens { (spelled : List Token) (text : List ℕ) →
        Makes spelled text ↔ (NoneRefused (found 0 0 text) × (tokens_of (found 0 0 text) ≡ spelled)) }
    ensures read { (text : List ℕ) (phrase : Term) → IsRead text phrase →
        (spelled : List Token) × Makes spelled text × IsBranch spelled phrase }
{}
