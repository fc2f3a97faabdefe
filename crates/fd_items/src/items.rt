// Items in order, which contracts see as a list.
ghost use Rattle.std.specs.Prelude.{◌≡◌, ◌∷◌, ◌++◌, [], IfOk, OnOk, length};

use std::alloc::AllocError;
use std::marker::Model;

/// Items in order, which contracts see as a list. None is taken out.
#[derive(Drop, Debug)]
pub struct Items<T> {
    kept: Vec<T>,
}

impl<T> Model for Items<T> {
    ghost use Rattle.std.specs.Prelude.{List};

    ghost Value = { List T };

    ghost view = { λ items. items.kept.items };
}

impl<T> Items<T> {
    /// The items of a vector. It takes no memory.
    pub fn new(items: Vec<T>) -> Self
        ensures { result ≡ items.items }
    {
        Items { kept: items }
    }

    /// The vector of the items. It takes no memory.
    pub fn into_vec(self) -> Vec<T>
        ensures { result.items ≡ self }
    {
        self.kept
    }

    /// The items in order.
    pub fn as_slice(&self) -> &[T]
        ensures { result.now ≡ self.now }
    {
        self.kept.as_slice()
    }
}

impl<T: Drop> Items<T> {
    /// Adds an item behind the others.
    ///
    /// # Errors
    /// `AllocError` where the memory is refused.
    pub fn push(&mut self, item: T) -> Result<(), AllocError>
        ensures { OnOk result (self.new ≡ self.old ++ item ∷ []) }
    {
        Ok(self.kept.push(item)?)
    }
}

impl<T: Copy> Items<T> {
    /// The same items.
    ///
    /// # Errors
    /// `AllocError` where the memory is refused.
    pub fn copied(&self) -> Result<Items<T>, AllocError>
        ensures { IfOk result (λ items. items ≡ self.now) }
    {
        let mut items = Vec::with_capacity(*self.kept.allocator(), self.kept.len())?;
        items.extend_from_slice(&self.kept)?;
        Ok(Items::new(items))
    }

    /// Puts these items in place of as many. It takes no memory.
    pub fn replace(&mut self, items: &[T])
        requires { length items.now ≡ length self.old }
        ensures { self.new ≡ items.now }
    {
        self.kept.copy_from_slice(items);
    }
}
