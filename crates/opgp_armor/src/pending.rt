//! The letters left over that don't yet make a group of four.

ghost use Rattle.std.specs.Prelude.{◌≡◌, ◌≤◌, ◌<◌, take, length, true, false};
ghost use Rattle.std.specs.List.{list_all};
ghost use Rattle.opgp_armor.specs.Letters.{is_letter};

/// The letters after the last whole group of a block, at most three, and whether a group was
/// padded.
#[derive(Clone, Copy)]
pub(crate) struct Pending {
    letters: [u8; 3],
    count: u8,
    padded: bool,
    ghost few: { count ≤ 3 },
    ghost written: { list_all is_letter (take count letters) ≡ true },
}

impl Pending {
    ghost use Rattle.opgp_armor.specs.LineAnswer.{pending_of};
    ghost use Rattle.opgp_armor.specs.Letters.{no_letters};
    ghost use Rattle.opgp_armor.specs.Machine.{waits};

    /// No letters, and no padded group.
    pub(crate) fn none() -> Pending
        ensures { pending_of result ≡ no_letters }
    {
        Pending {
            letters: [0; 3],
            count: 0,
            padded: false,
        }
    }

    /// The given letters, after groups of which one was padded or none.
    pub(crate) fn of(rest: &[u8], padded: bool) -> Pending
        requires few { length rest.now < 4 }
        requires written { list_all is_letter rest.now ≡ true }
        ensures { pending_of result ≡ record { letters = rest.now; padded = padded } }
    {
        let mut letters = [0; 3];
        letters[..rest.len()].copy_from_slice(rest);
        Pending {
            letters,
            count: rest.len() as u8,
            padded,
        }
    }

    /// The letters.
    pub(crate) fn letters(&self) -> &[u8]
        ensures { result.now ≡ (pending_of self.now).letters }
    {
        &self.letters[..self.count as usize]
    }

    /// Whether a letter is left over.
    pub(crate) fn waits(&self) -> bool
        ensures { result ≡ waits (pending_of self.now) }
    {
        self.count > 0
    }

    /// Whether a group was padded.
    pub(crate) fn is_padded(&self) -> bool
        ensures { result ≡ (pending_of self.now).padded }
    {
        self.padded
    }
}
