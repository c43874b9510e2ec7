// What a reader has heard in one round, by value: it is added to and handed back; and the rule by which a note is read.
ghost use Rattle.std.specs.Prelude.{◌≡◌, ◌≤◌, ◌&&◌, if◌then◌else◌, MatchOption, nat_lt};
ghost use Rattle.register.specs.Note.{same, Note as AnyNote};
ghost use Rattle.register.specs.Rule.{silence, reply, votes, later, readable, IsRead, pick};
ghost use Rattle.notes.specs.Views.{note_of, replies_of, reading_of, told_at};

use crate::ids::RoundNumber;
use crate::note::Note;
use crate::quorum::Quorum;
use crate::warden_id::WardenId;
use crate::warden_set::WardenSet;

/// Who has told, and at each one's place what it told first: all of it in place, so that a round can be handed on by value.
#[derive(Clone, Copy)]
pub struct Round {
    pub number: RoundNumber,
    pub heard: WardenSet,
    pub told: [Note; 63],
}

impl Round {
    /// A round in which nobody has told anything.
    pub fn new(number: RoundNumber) -> Round
        ensures number { result.number ≡ number }
        ensures replies { replies_of result ≡ silence }
    {
        Round {
            number,
            heard: WardenSet::new(),
            told: [Note::none(); 63],
        }
    }

    /// The round with what a warden told. Its first word counts: if it has told before, the round stays as it was.
    pub fn hear(self, warden: WardenId, note: Note) -> Round
        ensures number { result.number ≡ self.number }
        ensures replies { replies_of result ≡ (if (replies_of self).heard warden.index then replies_of self else reply warden.index (note_of note) (replies_of self)) }
    {
        if self.heard.contains(warden) {
            return self;
        }
        self.with(warden, note)
    }

    fn with(self, warden: WardenId, note: Note) -> Round
        ensures number { result.number ≡ self.number }
        ensures replies { replies_of result ≡ reply warden.index (note_of note) (replies_of self) }
    {
        let mut told = self.told;
        told[warden.index as usize] = note;
        Round {
            number: self.number,
            heard: self.heard.with(warden),
            told,
        }
    }

    fn has_told(&self, warden: WardenId) -> bool
        ensures { result ≡ (replies_of self.now).heard warden.index }
    {
        self.heard.contains(warden)
    }

    fn told_by(&self, warden: WardenId) -> &Note
        ensures { note_of result.now ≡ (replies_of self.now).told warden.index }
    {
        &self.told[warden.index as usize]
    }

    fn told_this(&self, warden: WardenId, note: &Note) -> bool
        ensures { result ≡ ((replies_of self.now).heard warden.index && same ((replies_of self.now).told warden.index) (note_of note.now)) }
    {
        self.has_told(warden) && self.told_by(warden) == note
    }

    fn told_later(&self, warden: WardenId, note: &Note) -> bool
        ensures { result ≡ ((replies_of self.now).heard warden.index && nat_lt (note_of note.now).edition ((replies_of self.now).told warden.index).edition) }
    {
        self.has_told(warden) && self.told_by(warden).edition > note.edition
    }

    /// How many told exactly this note.
    pub fn votes(&self, quorum: &Quorum, note: &Note) -> u8
        ensures value { result ≡ votes quorum.now.wardens (replies_of self.now) (note_of note.now) }
        ensures bound { result ≤ quorum.now.wardens }
    {
        quorum.count(|warden| self.told_this(warden, note))
    }

    /// How many told one of a later edition.
    pub fn later(&self, quorum: &Quorum, note: &Note) -> u8
        ensures value { result ≡ later quorum.now.wardens (replies_of self.now) (note_of note.now).edition }
        ensures bound { result ≤ quorum.now.wardens }
    {
        quorum.count(|warden| self.told_later(warden, note))
    }

    /// Whether more wardens than may be faulty told exactly this note, and no more than that a later one.
    pub fn is_read(&self, quorum: &Quorum, note: &Note) -> bool
        ensures { result ≡ readable quorum.now.wardens quorum.now.faults (replies_of self.now) (note_of note.now) }
    {
        self.votes(quorum, note) > quorum.faults && self.later(quorum, note) <= quorum.faults
    }

    /// The note that is read, where it was told: the first in the wardens' order.
    pub fn read(&self, quorum: &Quorum) -> Option<&Note>
        ensures computed { reading_of result ≡ pick quorum.now.wardens quorum.now.faults (replies_of self.now) quorum.now.wardens }
        ensures rule { MatchOption result ((x : AnyNote) → IsRead quorum.now.wardens quorum.now.faults (replies_of self.now) x → ⊥) (λ x. IsRead quorum.now.wardens quorum.now.faults (replies_of self.now) (note_of x.now)) }
    {
        self.note_read(quorum)
    }

    fn note_read(&self, quorum: &Quorum) -> Option<&Note>
        ensures { reading_of result ≡ pick quorum.now.wardens quorum.now.faults (replies_of self.now) quorum.now.wardens }
    {
        let warden = self.first_read(quorum)?;
        Some(self.told_by(warden))
    }

    // The first warden whose note is read: with it the loop is left.
    fn first_read(&self, quorum: &Quorum) -> Option<WardenId>
        ensures { pick quorum.now.wardens quorum.now.faults (replies_of self.now) quorum.now.wardens ≡ told_at (replies_of self.now) result }
    {
        let mut first = None;
        'told: for index in 0..quorum.wardens {
            let warden = WardenId { index };
            if !self.has_told(warden) {
                continue 'told;
            }
            if self.is_read(quorum, self.told_by(warden)) {
                first = Some(warden);
                break 'told;
            }
        }
        first
    }
}
