// The messages that are on their way.
ghost use Rattle.std.specs.Prelude.{◌≡◌, ◌+◌, ◌-◌, ◌^◌, min, [], ◌∷◌, ◌++◌, IfOk, MatchOption, OnOk};
ghost use Rattle.protocol.specs.Message.{packets, to_each};
ghost use Rattle.parties.specs.Views.{message_of, sends_of};
ghost use Rattle.rehearsal.specs.Ways.{packet_of, packets_of, meant, Absent, First, Picked, others};

use crate::party::Party;
use notes::ids::{NoteId, PartyId};
use parties::message::{Incoming, Message, Sends};
use std::alloc::{AllocError, Global};
use std::fmt;

/// A message on its way, about a note. Its number is its place among all that were ever sent.
#[derive(Clone, Copy, PartialEq, Eq, Debug)]
pub struct Packet {
    pub number: u64,
    pub from: PartyId,
    pub to: PartyId,
    pub note: NoteId,
    pub message: Message,
}

/// Which message is meant: the one of a number, or the first on its way between two parties.
#[derive(Clone, Copy, PartialEq, Eq, Debug)]
pub enum Which {
    Number(u64),
    Between(Party, Party),
}

/// The messages on their way, in the order in which they will come, and how many were ever sent.
#[derive(Drop)]
pub struct Way {
    pub packets: Vec<Packet>,
    pub sent: u64,
}

impl Packet {
    /// What comes to whom it is for.
    pub fn incoming(self) -> Incoming
        ensures { result ≡ record { from = self.from; note = self.note; message = self.message } }
    {
        Incoming {
            from: self.from,
            note: self.note,
            message: self.message,
        }
    }
}

impl Which {
    fn means(&self, packet: &Packet) -> bool
        ensures { result ≡ meant self.now packet.now }
    {
        match self {
            Which::Number(number) => packet.number == *number,
            Which::Between(from, to) => {
                packet.from == PartyId::from(*from) && packet.to == PartyId::from(*to)
            }
        }
    }
}

impl fmt::Display for Packet {
    fn fmt<W: fmt::Write>(&self, f: &mut fmt::Formatter<W>) -> fmt::Result {
        write!(f, "{}: {} -> {}: ", self.number, self.from, self.to)?;
        let about = self.note;
        match self.message {
            Message::Take(note) => write!(f, "take note {about} edition {note}"),
            Message::Took(edition) => write!(f, "took note {about} edition {edition}"),
            Message::Ask(round) => write!(f, "ask note {about} round {round}"),
            Message::Told(round, note) => {
                write!(f, "told note {about} round {round} edition {note}")
            }
        }
    }
}

impl Way {
    /// Nothing was sent yet.
    pub fn new(heap: Global) -> Way
        ensures { packets_of result ≡ [] }
    {
        Way {
            packets: Vec::new(heap),
            sent: 0,
        }
    }

    /// One message is sent.
    pub fn put(
        &mut self,
        from: PartyId,
        to: PartyId,
        note: NoteId,
        message: Message,
    ) -> Result<(), AllocError>
        ensures packets { OnOk result (packets_of self.new ≡ packets_of self.old ++ record { from = from.0; to = to.0; note = note.0; message = message_of message } ∷ []) }
        ensures numbered { OnOk result ((self.new.sent ≡ min (self.old.sent + 1) (2 ^ 64 - 1)) × (self.new.packets.items ≡ self.old.packets.items ++ record { number = self.new.sent; from = from; to = to; note = note; message = message } ∷ [])) }
    {
        let number = self.sent.saturating_add(1);
        self.packets.push(Packet {
            number,
            from,
            to,
            note,
            message,
        })?;
        self.sent = number;
        Ok(())
    }

    /// What a party sends at once about a note, with so many wardens.
    pub fn send(
        &mut self,
        wardens: u8,
        from: PartyId,
        note: NoteId,
        sends: Sends,
    ) -> Result<(), AllocError>
        ensures { OnOk result (packets_of self.new ≡ packets_of self.old ++ packets wardens from.0 note.0 (sends_of sends)) }
    {
        match sends {
            Sends::Nothing => Ok(()),
            Sends::One(to, message) => self.put(from, to, note, message),
            Sends::Each(message) => self.put_each(wardens, from, note, message),
        }
    }

    fn put_each(
        &mut self,
        wardens: u8,
        from: PartyId,
        note: NoteId,
        message: Message,
    ) -> Result<(), AllocError>
        ensures { OnOk result (packets_of self.new ≡ packets_of self.old ++ to_each wardens (λ i. record { from = from.0; to = i; note = note.0; message = message_of message })) }
    {
        for to in 0..wardens {
            self.put(from, PartyId(to as u32), note, message)?;
        }
        Ok(())
    }

    // The place of the first message that is meant.
    fn find(&self, which: Which) -> Option<usize>
        ensures { MatchOption result (Absent which self.now.packets.items) (λ i. First which self.now.packets.items i) }
    {
        self.packets.iter().position(|packet| which.means(packet))
    }

    /// Takes the first message, if there is one.
    pub fn take_first(&mut self) -> Option<Packet>
        ensures { MatchOption result ((self.old.packets.items ≡ []) × (self.new ≡ self.old)) (λ p. self.old.packets.items ≡ p ∷ self.new.packets.items) }
    {
        if self.packets.is_empty() {
            return None;
        }
        Some(self.packets.remove(0))
    }

    /// Takes a message, if it is on its way.
    pub fn take(&mut self, which: Which) -> Option<Packet>
        ensures { MatchOption result (Absent which self.old.packets.items × (self.new ≡ self.old)) (λ p. (k : Picked which self.old.packets.items p) × (self.new.packets.items ≡ others k)) }
    {
        let place = self.find(which)?;
        Some(self.packets.remove(place))
    }

    /// Sends one more like it.
    pub fn double(&mut self, which: Which) -> Result<Option<Packet>, AllocError>
        ensures { IfOk result (λ o. MatchOption o (Absent which self.old.packets.items × (self.new ≡ self.old)) (λ p. Picked which self.old.packets.items p × (packets_of self.new ≡ packets_of self.old ++ packet_of p ∷ []))) }
    {
        let Some(place) = self.find(which) else {
            return Ok(None);
        };
        let packet = self.packets[place];
        self.put(packet.from, packet.to, packet.note, packet.message)?;
        Ok(Some(packet))
    }

    /// Puts it behind all others.
    pub fn delay(&mut self, which: Which) -> Result<Option<Packet>, AllocError>
        ensures { IfOk result (λ o. MatchOption o (Absent which self.old.packets.items × (self.new ≡ self.old)) (λ p. (k : Picked which self.old.packets.items p) × (self.new.packets.items ≡ others k ++ p ∷ []))) }
    {
        let Some(packet) = self.take(which) else {
            return Ok(None);
        };
        self.packets.push(packet)?;
        Ok(Some(packet))
    }
}
