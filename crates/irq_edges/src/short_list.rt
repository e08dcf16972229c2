//! A list of a few elements.
ghost use Rattle.std.specs.Prelude.{◌≡◌, ◌<◌, ◌≤◌, ◌↔◌, IsTrue, [], ◌∷◌, ◌++◌, length};

use arrayvec::ArrayVec;
use std::marker::Model;

/// A list of at most `N` elements, in the order in which they came. It lies where it is held and takes no memory.
#[derive(Debug, Drop, PartialEq, Eq)]
pub struct ShortList<T, const N: usize> {
    elements: ArrayVec<T, N>,
}

impl<T, const N: usize> Model for ShortList<T, N> {
    ghost use Rattle.std.specs.Prelude.{◌≤◌, List, length};

    ghost Value = { List T };

    ghost view = { λ l. l.elements.items };

    ghost invariant = { λ l. length l.elements.items ≤ N };

    ghost inverse = { λ xs. record { elements = record { items = xs } } };
}

impl<T: Default + Drop, const N: usize> ShortList<T, N> {
    /// The empty list.
    pub fn new() -> ShortList<T, N>
        ensures { result ≡ [] }
    {
        ShortList {
            elements: ArrayVec::new(),
        }
    }

    /// Takes all elements out.
    pub fn clear(&mut self)
        ensures { self.new ≡ [] }
    {
        self.elements.clear();
    }

    /// Appends an element. A place must be free.
    pub fn push(&mut self, element: T)
        requires { length self.old < N }
        ensures { self.new ≡ self.old ++ element ∷ [] }
    {
        self.elements.push(element);
    }

    /// The elements, in the order in which they came.
    pub fn as_slice(&self) -> &[T]
        ensures value { result.now ≡ self.now }
        ensures fits { length result.now ≤ N }
    {
        self.elements.as_slice()
    }

    /// How many elements there are.
    pub fn len(&self) -> usize
        ensures value { result ≡ length self.now }
        ensures fits { result ≤ N }
    {
        self.elements.len()
    }

    /// Whether there is no element.
    pub fn is_empty(&self) -> bool
        ensures { IsTrue result ↔ (self.now ≡ []) }
    {
        self.elements.is_empty()
    }
}
