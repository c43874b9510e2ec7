// Why something is turned away or passed over.

#[derive(Clone, Copy, PartialEq, Eq, Debug)]
pub enum Refusal {
    /// Not a message that this party takes from that sender.
    Malformed = 1,
    /// A take whose edition is not above the one had.
    NotAbove = 2,
    /// A told of another round or note, or from one who told before in this round.
    NotAwaited = 3,
    /// A took of an edition that is not being written, or from one who said so before.
    NotCounted = 4,
    /// A write while a writing of that note is under way, or when its editions are used up; a round when a reader's numbers are used up.
    NotNow = 5,
    /// A note that is not had, with as many others had as there may be.
    NoRoom = 6,
}

// The number by which it is told.
impl From<Refusal> for u8 {
    ghost use Rattle.std.specs.Prelude.{◌≡◌};
    ghost use Rattle.parties.specs.Views.{number_of};

    ghost from_gives = { λ refusal number. number ≡ number_of refusal };

    fn from(refusal: Refusal) -> u8 {
        refusal as u8
    }
}
