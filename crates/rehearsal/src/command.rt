// The commands of a script.
ghost use Rattle.std.specs.Prelude.{◌≡◌, ◌↔◌, [], slice_get};
ghost use Rattle.rehearsal.specs.declared.command.Line.TheVariants.{Blank, Remark};

use crate::party::Party;
use crate::reader_id::ReaderId;
use crate::script_error::ScriptError;
use crate::way::Which;
use crate::words::{Words, party_of};
use notes::ids::NoteId;
use notes::quorum::Quorum;
use notes::value::Value;
use notes::warden_id::WardenId;
use parties::message::Message;

/// What a line of a script is.
#[derive(Clone, Copy, PartialEq, Eq, Debug)]
pub enum Line {
    Blank,
    Remark,
    /// The rehearsal begins anew, with so many wardens.
    Begin(Quorum),
    Do(Command),
}

#[derive(Clone, Copy, PartialEq, Eq, Debug)]
pub enum Command {
    /// A warden lies from now on.
    Liar(WardenId),
    /// A warden loses all that it had.
    Forget(WardenId),
    /// Liars answer by this seed from now on.
    Seed(u64),
    Write(NoteId, Value),
    Tick(Clock),
    Read(ReaderId, NoteId),
    Deliver(Which),
    DeliverAll,
    Lose(Which),
    Double(Which),
    Late(Which),
    Say(Saying),
    Show,
}

/// What a liar sends, about which note and to whom.
#[derive(Clone, Copy, PartialEq, Eq, Debug)]
pub struct Saying {
    pub liar: WardenId,
    pub to: Party,
    pub note: NoteId,
    pub message: Message,
}

/// For whom time passes.
#[derive(Clone, Copy, Debug, PartialEq, Eq)]
pub enum Clock {
    All,
    Office,
    Reader(ReaderId),
}

impl Line {
    pub fn parse(text: &str) -> Result<Line, ScriptError>
        ensures blank { (result ≡ Ok Blank) ↔ (text.now ≡ []) }
        ensures remark { (result ≡ Ok Remark) ↔ (slice_get text.now 0 ≡ Some 35) }
    {
        if text.is_empty() {
            return Ok(Line::Blank);
        }
        if text.starts_with('#') {
            return Ok(Line::Remark);
        }
        let mut words = Words::new(text);
        let line = match words.word()? {
            "wardens" => Line::Begin(words.quorum()?),
            name => Line::Do(Command::parse(name, &mut words)?),
        };
        words.end()?;
        Ok(line)
    }
}

impl Command {
    // The command of that name, with the words that follow it.
    fn parse(name: &str, words: &mut Words) -> Result<Command, ScriptError> {
        match name {
            "liar" => Ok(Command::Liar(words.warden()?)),
            "forget" => Ok(Command::Forget(words.warden()?)),
            "seed" => Ok(Command::Seed(words.number()?)),
            "write" => Ok(Command::Write(words.note_id()?, words.value()?)),
            "tick" => Ok(Command::Tick(Clock::parse(words)?)),
            "read" => Ok(Command::Read(words.reader()?, words.note_id()?)),
            "say" => Ok(Command::Say(Saying::parse(words)?)),
            "show" => Ok(Command::Show),
            _ => Command::parse_delivery(name, words),
        }
    }

    // The commands about what is on its way.
    fn parse_delivery(name: &str, words: &mut Words) -> Result<Command, ScriptError> {
        match name {
            "deliver" if words.is_last("all") => Ok(Command::DeliverAll),
            "deliver" => Ok(Command::Deliver(words.which()?)),
            "lose" => Ok(Command::Lose(words.which()?)),
            "double" => Ok(Command::Double(words.which()?)),
            "late" => Ok(Command::Late(words.which()?)),
            _ => Err(ScriptError::UnknownCommand),
        }
    }
}

impl Clock {
    fn parse(words: &mut Words) -> Result<Clock, ScriptError> {
        let Some(word) = words.next_word() else {
            return Ok(Clock::All);
        };
        match party_of(word)? {
            Party::Office => Ok(Clock::Office),
            Party::Reader(reader) => Ok(Clock::Reader(reader)),
            Party::Warden(_) => Err(ScriptError::NoClock),
        }
    }
}

impl Saying {
    fn parse(words: &mut Words) -> Result<Saying, ScriptError> {
        let liar = words.warden()?;
        let to = words.party()?;
        let (note, message) = words.message()?;
        Ok(Saying {
            liar,
            to,
            note,
            message,
        })
    }
}
