// Words by name, classes and names of elements.
ghost use Rattle.std.specs.Prelude.{◌≡◌};
ghost use Rattle.std.specs.List.{list_all};
ghost use Rattle.dss_model.specs.Names.{named, rows, is_name, is_name_character};
ghost use Rattle.dss_model.specs.Classes.{class_word, classes};
ghost use Rattle.dss_model.specs.SameElement.{SameElementIsEqual, same_element};

use dss_lexer::Text;

/// What the first row with this name stands for.
pub fn find_named<T: Copy>(table: &[(&str, T)], name: &str) -> Option<T>
    ensures { result ≡ named (rows table.now) name.now }
{
    for (known, meaning) in table {
        if *known == name {
            return Some(*meaning);
        }
    }
    None
}

fn is_part_of_name(character: char) -> bool
    ensures { result ≡ is_name_character character }
{
    character.is_ascii_alphanumeric() || matches!(character, '_' | '-' | '%')
}

fn are_parts_of_name(characters: &[char]) -> bool
    ensures { result ≡ list_all is_name_character characters.now }
{
    characters
        .iter()
        .all(|character| is_part_of_name(*character))
}

/// Whether a text is the name of an element or a bus: ASCII letters, digits, `_`, `-` and `%`, one at least.
#[tactic(auto, unfolding(crate::specs::Names::is_name))]
pub fn is_legal_name(characters: &[char]) -> bool
    ensures { result ≡ is_name characters.now }
{
    characters.len() > 0 && are_parts_of_name(characters)
}

/// A class of elements.
#[derive(Clone, Copy, PartialEq, Eq, Hash)]
pub enum Class {
    Vsource,
    Linecode,
    Line,
    Transformer,
    Capacitor,
    Load,
    RegControl,
    CapControl,
    Loadshape,
}

/// An element's class and its name, in lower case. No two elements share both.
#[derive(Drop, Clone, PartialEq, Eq, Hash)]
pub struct ElementName {
    pub class: Class,
    pub name: Text,
}

/// Two elements are the same where class and name are: `==` answers so, and it is equality.
#[tactic(auto, using(crate::proofs::CallerLemmas::compares, crate::proofs::CallerLemmas::equal))]
pub fn name_law()
    ensures compares { ⟦<ElementName as PartialEq>⟧.eq ≡ same_element }
    ensures equal { SameElementIsEqual }
{}

impl Class {
    /// The word of the class, in lower case.
    pub fn word(self) -> &'static str
        ensures { result.now ≡ class_word self }
    {
        match self {
            Class::Vsource => "vsource",
            Class::Linecode => "linecode",
            Class::Line => "line",
            Class::Transformer => "transformer",
            Class::Capacitor => "capacitor",
            Class::Load => "load",
            Class::RegControl => "regcontrol",
            Class::CapControl => "capcontrol",
            Class::Loadshape => "loadshape",
        }
    }
}

fn with_word(class: Class) -> (&'static str, Class)
    ensures word { result.0.now ≡ class_word class }
    ensures class { result.1 ≡ class }
{
    (class.word(), class)
}

/// The class of a word in lower case.
pub fn class_named(name: &str) -> Option<Class>
    ensures { result ≡ named classes name.now }
{
    let classes = [
        with_word(Class::Vsource),
        with_word(Class::Linecode),
        with_word(Class::Line),
        with_word(Class::Transformer),
        with_word(Class::Capacitor),
        with_word(Class::Load),
        with_word(Class::RegControl),
        with_word(Class::CapControl),
        with_word(Class::Loadshape),
    ];
    find_named(&classes, name)
}
