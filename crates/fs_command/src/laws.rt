// What the places of bad words are, said by the grammar's table. The function does nothing: it carries a law.
ghost use Rattle.std.specs.Prelude.{◌≡◌, ◌+◌, List, ℕ, length};
ghost use Rattle.fs_command.specs.Words.{words};
ghost use Rattle.fs_command.specs.Commands.{command};
ghost use Rattle.fs_command.specs.Grammar.{forms, bad_place, refused_at};

/// A text is refused exactly where its words are no command of the grammar, at the place of the first word that no form of
/// command has behind the words before it, or one past the text's end where a word is missing.
#[tactic(auto, using(crate::proofs::Table::places))]
pub fn places_are_those_of_the_grammar()
    ensures { (user text : List ℕ) → refused_at (command user text) ≡ bad_place (length text + 1) forms (words 1 text) }
{}
