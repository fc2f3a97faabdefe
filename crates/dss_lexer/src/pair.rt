// Words and pairs.
use crate::Text;
use fd_items::Items;

/// A name and its value, or a word, which is a value with an empty name. Both are as written.
#[derive(Drop, Debug)]
pub struct Pair {
    /// What stands before the equals sign.
    pub name: Text,
    /// What stands after it, or within the brackets or quotes of a group.
    pub value: Text,
    /// Whether the value stood in brackets or quotes.
    pub grouped: bool,
}

/// Words and pairs in their order.
pub type PairList = Items<Pair>;
