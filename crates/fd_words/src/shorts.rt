// The kinds of short circuits of a command line.
ghost use Rattle.std.specs.Prelude.{◌≡◌};
ghost use Rattle.fd_words.specs.Shorts.{short_of};

/// What a short circuit joins to ground: all three nodes of a bus, or one.
#[derive(Clone, Copy, Drop)]
pub enum Short {
    Lll,
    Lg1,
    Lg2,
    Lg3,
}

/// The kind of short circuit that a word is.
pub(crate) fn short_of(word: &str) -> Option<Short>
    ensures { result ≡ short_of word.now }
{
    match word {
        "lll" => Some(Short::Lll),
        "lg1" => Some(Short::Lg1),
        "lg2" => Some(Short::Lg2),
        "lg3" => Some(Short::Lg3),
        _ => None,
    }
}
