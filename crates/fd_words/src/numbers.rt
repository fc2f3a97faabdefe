// The numbers of a command line.
ghost use Rattle.std.specs.Prelude.{◌≡◌, ◌≤◌, IfSome};
ghost use Rattle.fd_words.specs.Numbers.{all_digits, are_digits, number_of, sections_of, value_of};

// The most digits of a number.
const NUMBER_DIGITS: usize = 20;

// The most digits of a number of sections.
const SECTION_DIGITS: usize = 2;

const MOST_SECTIONS: u64 = 79;

fn all_digits(word: &[u8]) -> bool
    ensures { result ≡ all_digits word.now }
{
    word.iter().all(|digit| digit.is_ascii_digit())
}

// Whether a word is of digits alone, one to so many.
fn are_digits(word: &str, most: usize) -> bool
    ensures { result ≡ are_digits most word.now }
{
    !word.is_empty() && word.len() <= most && all_digits(word.as_bytes())
}

// The value of a word of at most so many digits.
fn value(word: &str, most: usize) -> Option<u64>
    ensures { result ≡ value_of most word.now }
{
    if are_digits(word, most) {
        word.parse::<u64>().ok()
    } else {
        None
    }
}

/// The number of a feeder that a word is.
pub(crate) fn number_of(word: &str) -> Option<u64>
    ensures { result ≡ number_of word.now }
{
    value(word, NUMBER_DIGITS)
}

/// The number of sections that a word is.
pub(crate) fn sections_of(word: &str) -> Option<u32>
    ensures value { result ≡ sections_of word.now }
    ensures some { IfSome result (λ n. 1 ≤ n) }
{
    match value(word, SECTION_DIGITS) {
        Some(count @ 1..=MOST_SECTIONS) => Some(count as u32),
        _ => None,
    }
}
