// Text that contracts see as its characters.
ghost use Rattle.std.specs.Prelude.{◌≡◌, encode_utf8_all, IfOk, Some, map};
ghost use Rattle.std.proofs.Common.{rules};
ghost use Rattle.std.specs.Char.{to_ascii_lowercase};
ghost use Rattle.std.specs.Str.{chars};
ghost use Rattle.std.specs.Cmp.Lexicographic.{nat_list_eq_equiv};
ghost use Rattle.std.specs.Cmp.Rules.{comparing, hashing};
ghost use Rattle.std.specs.Hash as fed;
ghost use Rattle.dss_lexer.specs.Texts.{text_eq, is_empty};

use std::alloc::{AllocError, Global};
use std::fmt;
use std::hash::{Hash, Hasher};
use std::marker::Model;

/// A text, which contracts see as the list of its characters. Two texts are equal where their characters are.
#[derive(Drop, Debug)]
pub struct Text {
    kept: String,
}

impl Model for Text {
    ghost use Rattle.std.specs.Prelude.{List, ℕ, string_bytes};
    ghost use Rattle.std.specs.Str.{chars};

    ghost Value = { List ℕ };

    ghost view = { λ t. chars (string_bytes t.kept) };
}

impl Text {
    ghost use Rattle.std.specs.Prelude.{string_bytes};

    /// The text that this string spells. Takes no memory.
    pub fn new(text: String) -> Self
        ensures { result ≡ chars (string_bytes text) }
    {
        Text { kept: text }
    }

    /// The text of these characters.
    pub fn of(alloc: Global, characters: &[char]) -> Result<Self, AllocError>
        ensures { IfOk result (λ text. text ≡ characters.now) }
    {
        let text: String = characters.iter().copied().collect(alloc)?;
        Ok(Text::new(text))
    }

    /// The same text in lower case, by ASCII.
    pub fn lowered(&self, alloc: Global) -> Result<Self, AllocError>
        ensures { IfOk result (λ text. text ≡ map to_ascii_lowercase self.now) }
    {
        Text::of(alloc, &lowered_characters(alloc, self.as_str())?)
    }

    /// Its characters, one by one.
    pub fn characters(&self, alloc: Global) -> Result<Vec<char>, AllocError>
        ensures { IfOk result (λ v. v.items ≡ self.now) }
    {
        characters_of(alloc, self.as_str())
    }

    /// Whether it has no characters.
    #[tactic(auto, using(crate::proofs::SameText::no_bytes))]
    pub fn is_empty(&self) -> bool
        ensures { result ≡ is_empty self.now }
    {
        self.as_str().is_empty()
    }

    /// Its bytes, as UTF-8.
    pub fn as_str(&self) -> &str
        ensures bytes { result.now ≡ encode_utf8_all self.now }
        ensures characters { chars result.now ≡ self.now }
    {
        self.kept.as_str()
    }
}

/// The characters of a text, one by one.
pub fn characters_of(alloc: Global, text: &str) -> Result<Vec<char>, AllocError>
    ensures { IfOk result (λ v. v.items ≡ chars text.now) }
{
    text.chars().collect(alloc)
}

fn lowered_characters(alloc: Global, text: &str) -> Result<Vec<char>, AllocError>
    ensures { IfOk result (λ v. v.items ≡ map to_ascii_lowercase (chars text.now)) }
{
    text.chars().map(|c| c.to_ascii_lowercase()).collect(alloc)
}

impl fmt::Display for Text {
    ghost output = { λ t. Some (encode_utf8_all t) };

    fn fmt<W: fmt::Write>(&self, f: &mut fmt::Formatter<W>) -> fmt::Result {
        f.write_str(self.as_str())
    }
}

impl Clone for Text {
    ghost is_clone = { λ old new. new ≡ old };

    fn clone(&self) -> Result<Self, AllocError> {
        Ok(Text {
            kept: self.kept.clone()?,
        })
    }
}

impl PartialEq for Text {
    ghost eq = { text_eq };

    ghost laws = { Prim.search (comparing, rules) };

    fn eq(&self, other: &Text) -> bool {
        self.as_str() == other.as_str()
    }
}

impl Eq for Text {
    ghost laws = { nat_list_eq_equiv };
}

impl Hash for Text {
    ghost hash_input = { λ t. fed.str (encode_utf8_all t) };

    ghost respects_eq = { Prim.search (hashing, rules) };

    fn hash<H: Hasher>(&self, state: &mut H) {
        self.as_str().hash(state);
    }
}
