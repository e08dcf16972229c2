//! The fields of a page.
ghost use Rattle.std.specs.Prelude.{◌≡◌, ◌<◌};
ghost use Rattle.clock_table.specs.Calls.{field_number};

/// A field of a page, as one word: all of a page but its version.
#[derive(Clone, Copy, Debug, PartialEq, Eq)]
pub enum Field {
    /// The TSC at which the time was right.
    Stamp,
    /// The time when the page was published.
    System,
    /// Multiplier, shift, flags, and whether the page is enabled (`pvclock_page::page_words`).
    Scale,
    /// The offset of the TSC.
    Offset,
}

impl Field {
    /// Its place among the fields, from 0.
    pub(crate) fn number(self) -> usize
        ensures value { result ≡ field_number self }
        ensures small { result < 4 }
    {
        match self {
            Field::Stamp => 0,
            Field::System => 1,
            Field::Scale => 2,
            Field::Offset => 3,
        }
    }
}
