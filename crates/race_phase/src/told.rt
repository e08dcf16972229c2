//! What a worker was told.
ghost use Rattle.std.specs.Prelude.{◌≡◌};
ghost use Rattle.race_phase.specs.declared.told.Told.TheVariants.{Acted};

use shared_board::ReadReply;

/// What a record was answered. The reply of an access is apart, where the worker keeps it.
#[derive(Drop)]
pub(crate) enum Told {
    /// The access was done.
    Acted,
    /// Pages or the clock were read.
    Read { reply: ReadReply },
}

impl Told {
    // A value is written whole, with the room of its largest case, and most records are accesses.
    /// Tells of an access. Where it does so already, nothing is written.
    #[inline(always)]
    pub(crate) fn note_act(&mut self)
        ensures { self.new ≡ Acted }
    {
        if !matches!(self, Told::Acted) {
            *self = Told::Acted;
        }
    }
}
