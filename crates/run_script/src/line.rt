// One line after another.
ghost use Rattle.std.specs.Prelude.{◌≡◌, ◌<◌, ◌==◌, ◌∷◌, length};
ghost use Rattle.std.specs.Str.Lines.{lines, strip_carriage_return};
ghost use Rattle.std.specs.List.{list_all, position};
ghost use Rattle.dl_base.specs.Blank.{is_blank};
ghost use Rattle.meaning_script.specs.Lines.{is_quiet};

/// The first line of what is left of a script, without its newline and a carriage return just before that, and what
/// stands behind it.
pub fn first_line(script: &[u8]) -> (&[u8], &[u8])
    requires { 0 < length script.now }
    ensures first { lines script.now ≡ result.0.now ∷ lines result.1.now }
    ensures shorter { length result.1.now < length script.now }
{
    match newline(script) {
        Some(at) => (without_return(&script[..at]), &script[at + 1..]),
        None => (script, &[]),
    }
}

// Where the first newline stands.
fn newline(script: &[u8]) -> Option<usize>
    ensures { result ≡ position (λ b. b == 10) script.now }
{
    script.iter().position(|b| *b == b'\n')
}

fn without_return(line: &[u8]) -> &[u8]
    ensures { result.now ≡ strip_carriage_return line.now }
{
    match line {
        [front @ .., b'\r'] => front,
        _ => line,
    }
}

/// Whether a line is answered nothing: it has blanks alone, or is a comment, which begins with two dashes.
#[tactic(auto, unfolding(meaning_script::specs::Lines::is_quiet))]
pub fn is_quiet(line: &[u8]) -> bool
    ensures { result ≡ is_quiet line.now }
{
    are_blank(line) || line.starts_with(b"--")
}

fn are_blank(bytes: &[u8]) -> bool
    ensures { result ≡ list_all is_blank bytes.now }
{
    bytes.iter().all(|b| *b == b' ' || *b == b'\t')
}
