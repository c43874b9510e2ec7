// What a liar makes up, from a seed.
ghost use Rattle.std.specs.Prelude.{◌≡◌, option_map};
ghost use Rattle.notes.specs.Views.{bytes_of, note_of};
ghost use Rattle.parties.specs.Views.{message_of};
ghost use Rattle.rehearsal.specs.Seeds.{stepped, drawn, speaks_by, round_by, edition_by, value_by, after_value, note_by, answer_by, after_answer};

use notes::ids::{Edition, RoundNumber};
use notes::note::Note;
use notes::value::Value;
use parties::message::Message;

/// The numbers by which liars answer, drawn one after another: splitmix64.
#[derive(Clone, Copy, Debug, PartialEq, Eq)]
pub struct Seed {
    pub state: u64,
}

impl Seed {
    pub fn draw(&mut self) -> u64
        ensures state { self.new.state ≡ stepped self.old.state }
        ensures value { result ≡ drawn self.old.state }
    {
        self.state = self.state.wrapping_add(0x9E37_79B9_7F4A_7C15);
        let mut z = self.state;
        z = (z ^ (z >> 30)).wrapping_mul(0xBF58_476D_1CE4_E5B9);
        z = (z ^ (z >> 27)).wrapping_mul(0x94D0_49BB_1331_11EB);
        z ^ (z >> 31)
    }

    /// What is said to a take or an ask, if anything: the first draw tells whether, and then the words are drawn in their order.
    pub fn answer(&mut self, message: Message) -> Option<Message>
        ensures state { self.new.state ≡ after_answer self.old.state (message_of message) }
        ensures said { option_map message_of result ≡ answer_by self.old.state (message_of message) }
    {
        match message {
            Message::Take(_) if self.speaks() => Some(Message::Took(self.edition())),
            Message::Ask(round) if self.speaks() => {
                Some(Message::Told(self.round(round), self.note()))
            }
            _ => None,
        }
    }

    // One time in eight it says nothing.
    fn speaks(&mut self) -> bool
        ensures state { self.new.state ≡ stepped self.old.state }
        ensures value { result ≡ speaks_by (drawn self.old.state) }
    {
        self.draw() % 8 != 0
    }

    // The round that was asked, or one time in eight each the next or the one before.
    fn round(&mut self, asked: RoundNumber) -> RoundNumber
        ensures state { self.new.state ≡ stepped self.old.state }
        ensures value { result.0 ≡ round_by (drawn self.old.state) asked.0 }
    {
        match self.draw() % 8 {
            0 => RoundNumber(asked.0.wrapping_add(1)),
            1 => RoundNumber(asked.0.wrapping_sub(1)),
            _ => asked,
        }
    }

    // One of 0 to 9, or the greatest number that there is.
    fn edition(&mut self) -> Edition
        ensures state { self.new.state ≡ stepped self.old.state }
        ensures value { result.0 ≡ edition_by (drawn self.old.state) }
    {
        match self.draw() % 11 {
            10 => Edition(u64::MAX),
            edition => Edition(edition),
        }
    }

    fn note(&mut self) -> Note
        ensures state { self.new.state ≡ after_value (stepped self.old.state) }
        ensures note { note_of result ≡ note_by self.old.state }
    {
        Note {
            edition: self.edition(),
            value: self.value(),
        }
    }

    // Up to three bytes.
    fn value(&mut self) -> Value
        ensures state { self.new.state ≡ after_value self.old.state }
        ensures bytes { bytes_of result ≡ value_by self.old.state }
    {
        let length = (self.draw() % 4) as u8;
        let mut bytes = [0; 64];
        for byte in &mut bytes[..length as usize] {
            *byte = (self.draw() % 256) as u8;
        }
        Value { length, bytes }
    }
}
