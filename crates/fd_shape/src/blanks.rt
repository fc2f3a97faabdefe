// Blanks and tabs round a text.
ghost use Rattle.std.specs.Prelude.{◌≡◌};
ghost use Rattle.dss_lexer.specs.Line.{skip_blanks};
ghost use Rattle.fd_shape.specs.Column.{without_last_blanks};

fn without_first(text: &[u8]) -> &[u8]
    ensures { result.now ≡ skip_blanks text.now }
{
    let mut rest = text;
    while let [b' ' | b'\t', tail @ ..] = rest {
        rest = tail;
    }
    rest
}

fn without_last(text: &[u8]) -> &[u8]
    ensures { result.now ≡ without_last_blanks text.now }
{
    let mut rest = text;
    while let [front @ .., b' ' | b'\t'] = rest {
        rest = front;
    }
    rest
}

/// A text without the blanks and tabs at both its ends.
pub fn trimmed(text: &[u8]) -> &[u8]
    ensures { result.now ≡ without_last_blanks (skip_blanks text.now) }
{
    without_last(without_first(text))
}
