// Laws of lexemes. These functions do nothing: their contracts say what follows from the definitions.
ghost use Rattle.std.specs.Prelude.{◌≡◌, ◌⊎◌, ◌≤◌, List, ◌++◌, ℕ, length, map};
ghost use Rattle.std.specs.List.{All};
ghost use Rattle.std.specs.Char.{to_ascii_uppercase};
ghost use Rattle.sql_lex.specs.declared.lexeme.LexKind as kinds;
ghost use Rattle.sql_lex.specs.declared.lexeme.LexKind.TheVariants as kind;
ghost use Rattle.sql_lex.specs.declared.lexeme.Lexeme as placed;
ghost use Rattle.sql_lex.specs.Spelling.{IsSpelled, Spells, IsFront};
ghost use Rattle.sql_lex.specs.Lexes.{Lexes, IsBad};
ghost use Rattle.sql_lex.specs.Joined.{written, Piece, joined, ArePieces, LexesAs};

/// A text either is lexemes or has a first byte that begins none, and either in one way.
pub fn one_answer()
    ensures some { (text : List ℕ) → ((xs : List placed.Lexeme) × Lexes 1 text xs) ⊎ ((k : ℕ) × IsBad text k) }
    ensures lexemes { (text : List ℕ) (xs ys : List placed.Lexeme) → Lexes 1 text xs → Lexes 1 text ys → xs ≡ ys }
    ensures place { (text : List ℕ) (j k : ℕ) → IsBad text j → IsBad text k → j ≡ k }
    ensures never_both { (text : List ℕ) (xs : List placed.Lexeme) (k : ℕ) → Lexes 1 text xs → IsBad text k → ⊥ }
{}

/// A lexeme that some bytes spell is spelled by what is written of it. A word may be written in capitals too.
pub fn written_again()
    ensures written { (kind : kinds.LexKind) → IsSpelled kind → Spells kind (written kind) }
    ensures capitals { (word : List ℕ) → IsSpelled (kind.Word word) → Spells (kind.Word word) (map to_ascii_uppercase word) }
    // Some bytes spell each lexeme of a text.
    ensures spelled { (xs : List placed.Lexeme) (at : ℕ) (text : List ℕ) → Lexes at text xs → All (λ x. IsSpelled x.kind) xs }
{}

/// What is written with one blank between lexemes, and none round a dot, is read as what was written.
#[tactic(auto, using(crate::proofs::Joins::joined_lexes))]
pub fn joined_again()
    ensures { (xs : List Piece) (at : ℕ) → ArePieces xs → LexesAs at (joined xs) (map (λ x. x.0) xs) }
{}

/// No bytes at the place of a lexeme spell a longer one.
pub fn longest()
    ensures { (kind other : kinds.LexKind) (body rest spelled left : List ℕ) → IsFront kind body rest → Spells other spelled → spelled ++ left ≡ body ++ rest → length spelled ≤ length body }
{}
