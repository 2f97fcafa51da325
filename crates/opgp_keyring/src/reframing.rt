//! Reframing in place: the current format for packets.

ghost use Rattle.std.specs.Prelude.{◌≡◌, map};

/// A packet's place, or a value made of packets.
pub(crate) trait Reframe {
    // The value in the current format.
    ghost normal: { Self → Self };

    /// Gives each of its packets the current format with its shortest length. Allocates nothing.
    fn reframe(&mut self)
        ensures { self.new ≡ normal self.old };
}

/// Gives each packet of each item the current format with its shortest length. Allocates nothing.
pub(crate) fn reframe_all<T: Reframe>(items: &mut Vec<T>)
    ensures { items.new.items ≡ map T.normal items.old.items }
{
    for item in items.iter_mut() {
        item.reframe();
    }
}
