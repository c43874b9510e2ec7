// What a command does on the stage, and what is told of it. A command that is turned away leaves the stage as it is.
ghost use Rattle.std.specs.Prelude.{◌≡◌};
ghost use Rattle.rehearsal.specs.Scenes.{IfTurnedAway};

use crate::command::{Clock, Command, Saying};
use crate::failure::Failure;
use crate::liar::Seed;
use crate::reader_id::ReaderId;
use crate::script_error::ScriptError;
use crate::stage::{Arrival, Stage};
use crate::transcript::Transcript;
use crate::way::{Packet, Which};
use notes::ids::NoteId;
use notes::value::Value;

/// The most messages that come by one `deliver all`.
pub const MOST_DELIVERED: u32 = 10000;

impl Stage {
    /// Does a command.
    pub fn play(&mut self, out: &mut Transcript, command: Command) -> Result<(), Failure>
        ensures { IfTurnedAway result (self.new ≡ self.old) }
    {
        match command {
            Command::Liar(warden) => {
                self.cast.turn(warden)?;
                Ok(out.turns(warden)?)
            }
            Command::Forget(warden) => {
                self.cast.forget(self.heap, warden)?;
                Ok(out.forgets(warden)?)
            }
            Command::Seed(seed) => {
                self.seed = Some(Seed { state: seed });
                Ok(out.seeds(seed)?)
            }
            Command::Write(note, value) => self.play_write(out, note, value),
            Command::Tick(clock) => self.play_tick(out, clock),
            Command::Read(reader, note) => self.play_read(out, reader, note),
            Command::Deliver(which) => self.play_deliver(out, which),
            Command::DeliverAll => self.play_deliver_all(out),
            Command::Lose(which) => self.play_lose(out, which),
            Command::Double(which) => self.play_double(out, which),
            Command::Late(which) => self.play_late(out, which),
            Command::Say(saying) => self.play_say(out, saying),
            Command::Show => Ok(out.show(self)?),
        }
    }

    fn play_write(
        &mut self,
        out: &mut Transcript,
        note: NoteId,
        value: Value,
    ) -> Result<(), Failure>
        ensures { IfTurnedAway result ⊥ }
    {
        let before = self.way.packets.len();
        let outcome = self.write(note, value)?;
        out.writes(note, self.cast.written(note), outcome)?;
        Ok(out.sent(&self.way, before)?)
    }

    fn play_tick(&mut self, out: &mut Transcript, clock: Clock) -> Result<(), Failure>
        ensures { IfTurnedAway result ⊥ }
    {
        match clock {
            Clock::Office => self.play_tick_office(out),
            Clock::Reader(reader) => self.play_tick_reader(out, reader),
            Clock::All => self.play_tick_all(out),
        }
    }

    fn play_tick_office(&mut self, out: &mut Transcript) -> Result<(), Failure>
        ensures { IfTurnedAway result ⊥ }
    {
        let before = self.way.packets.len();
        self.tick_office()?;
        out.office_ticks(&self.cast.office)?;
        Ok(out.sent(&self.way, before)?)
    }

    fn play_tick_reader(&mut self, out: &mut Transcript, reader: ReaderId) -> Result<(), Failure>
        ensures { IfTurnedAway result ⊥ }
    {
        let before = self.way.packets.len();
        let outcome = self.tick_reader(reader)?;
        out.reader(&self.cast, reader, outcome)?;
        Ok(out.sent(&self.way, before)?)
    }

    // A reader that never began to read is passed over.
    fn play_tick_all(&mut self, out: &mut Transcript) -> Result<(), Failure>
        ensures { IfTurnedAway result ⊥ }
    {
        self.play_tick_office(out)?;
        for reader in ReaderId::all() {
            if self.cast.readers.has_read(reader) {
                self.play_tick_reader(out, reader)?;
            }
        }
        Ok(())
    }

    fn play_read(
        &mut self,
        out: &mut Transcript,
        reader: ReaderId,
        note: NoteId,
    ) -> Result<(), Failure>
        ensures { IfTurnedAway result ⊥ }
    {
        let before = self.way.packets.len();
        let outcome = self.read(reader, note)?;
        out.reader(&self.cast, reader, outcome)?;
        Ok(out.sent(&self.way, before)?)
    }

    fn play_deliver(&mut self, out: &mut Transcript, which: Which) -> Result<(), Failure>
        ensures { IfTurnedAway result (self.new ≡ self.old) }
    {
        let packet = self.way.take(which).ok_or(ScriptError::NotOnItsWay)?;
        self.bring(out, packet)
    }

    fn play_deliver_all(&mut self, out: &mut Transcript) -> Result<(), Failure>
        ensures { IfTurnedAway result ⊥ }
    {
        if self.way.packets.is_empty() {
            return Ok(out.nothing_comes()?);
        }
        for _ in 0..MOST_DELIVERED {
            let Some(packet) = self.way.take_first() else {
                return Ok(());
            };
            self.bring(out, packet)?;
        }
        if self.way.packets.is_empty() {
            return Ok(());
        }
        Ok(out.stops(MOST_DELIVERED)?)
    }

    // A message that was taken from the way comes to whom it is for.
    fn bring(&mut self, out: &mut Transcript, packet: Packet) -> Result<(), Failure>
        ensures { IfTurnedAway result ⊥ }
    {
        let before = self.way.packets.len();
        let arrival = self.arrive(packet)?;
        if let Arrival::Liar = arrival {
            self.lie(packet)?;
        }
        out.comes(&self.cast, packet, arrival)?;
        Ok(out.sent(&self.way, before)?)
    }

    fn play_lose(&mut self, out: &mut Transcript, which: Which) -> Result<(), Failure>
        ensures { IfTurnedAway result (self.new ≡ self.old) }
    {
        let packet = self.way.take(which).ok_or(ScriptError::NotOnItsWay)?;
        Ok(out.became(packet, "lost")?)
    }

    fn play_double(&mut self, out: &mut Transcript, which: Which) -> Result<(), Failure>
        ensures { IfTurnedAway result (self.new ≡ self.old) }
    {
        let before = self.way.packets.len();
        let packet = self.way.double(which)?.ok_or(ScriptError::NotOnItsWay)?;
        out.became(packet, "doubled")?;
        Ok(out.sent(&self.way, before)?)
    }

    fn play_late(&mut self, out: &mut Transcript, which: Which) -> Result<(), Failure>
        ensures { IfTurnedAway result (self.new ≡ self.old) }
    {
        let packet = self.way.delay(which)?.ok_or(ScriptError::NotOnItsWay)?;
        Ok(out.became(packet, "late")?)
    }

    fn play_say(&mut self, out: &mut Transcript, saying: Saying) -> Result<(), Failure>
        ensures { IfTurnedAway result (self.new ≡ self.old) }
    {
        let before = self.way.packets.len();
        self.say(saying)?;
        Ok(out.sent(&self.way, before)?)
    }
}
