// The lists of public types.
ghost use Rattle.std.specs.Prelude.{◌≡◌, ◌^◌, ◌<◌, length, slice_get, vec_len};

use std::marker::Model;

/// Fewer than 2^32 items in order. Contracts see them as a list.
#[derive(Drop)]
pub struct ItemList<T> {
    items: Vec<T>,
}

/// Bytes as they come from outside or go there.
pub type Bytes = ItemList<u8>;

impl<T> Model for ItemList<T> {
    ghost use Rattle.std.specs.Prelude.{List, ◌<◌, ◌^◌, length};

    ghost Value = { List T };

    ghost view = { λ l. l.items.items };

    ghost invariant = { λ l. length l.items.items < 2 ^ 32 };
}

impl<T> ItemList<T> {
    /// The list of these items. Takes no memory.
    pub fn of(items: Vec<T>) -> Self
        requires { vec_len items < 2 ^ 32 }
        ensures { result ≡ items.items }
    {
        ItemList { items }
    }

    /// How many items there are.
    pub fn len(&self) -> u32
        ensures { result ≡ length self.now }
    {
        self.items.len() as u32
    }

    /// The item at a place.
    pub fn get(&self, i: u32) -> T
    where
        T: Copy,
        requires { i < length self.now }
        ensures { slice_get self.now i ≡ Some result }
    {
        self.items[i as usize]
    }

    /// The items as a slice.
    pub fn as_slice(&self) -> &[T]
        ensures is { result.now ≡ self.now }
        ensures few { length self.now < 2 ^ 32 }
    {
        &self.items
    }
}
