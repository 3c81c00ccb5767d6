// What the form of a token means, said without reading. The functions do nothing: each carries a law.
ghost use Rattle.std.specs.Prelude.{◌≡◌, ◌↔◌, List, ℕ, true, Some, None};
ghost use Rattle.dl_base.specs.Path.{IsPath};
ghost use Rattle.dl_base.specs.declared.file.Token.{Token as TokenOf};
ghost use Rattle.dl_token.specs.Tokens.{has_token_form, read_token, with_token, HasToken, ReadsAs, IsToken};

/// A text is of the token form exactly where its last name is some token, a semicolon and at least one byte more.
pub fn form_is_of_a_token()
    ensures { (text : List ℕ) → (has_token_form text ≡ true) ↔ ((t : TokenOf) × (more : List ℕ) × HasToken text t more) }
{}

/// A text is read as a path and a token exactly where it is that path with that token, and as none exactly where it is
/// of no path and token; so a path with a token is read back.
pub fn reading_is_of_a_path()
    ensures found { (text path : List ℕ) (t : TokenOf) → (read_token text ≡ Some (path, t)) ↔ ReadsAs text path t }
    ensures absent { (text : List ℕ) → (read_token text ≡ None) ↔ ((path : List ℕ) (t : TokenOf) → ReadsAs text path t → ⊥) }
    ensures back { (path : List ℕ) (t : TokenOf) → IsPath path → IsToken t → read_token (with_token path t) ≡ Some (path, t) }
{}
