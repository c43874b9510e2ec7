// A rehearsal, line by line of its script.
ghost use Rattle.std.specs.Prelude.{◌≡◌, [], string_bytes};

use crate::command::Line;
use crate::failure::Failure;
use crate::script_error::ScriptError;
use crate::stage::Stage;
use crate::transcript::Transcript;
use std::alloc::{AllocError, Global};

/// How many lines were read, what is on the stage once it has begun, and what is told.
#[derive(Drop)]
pub struct Rehearsal {
    heap: Global,
    lines: u64,
    stage: Option<Stage>,
    pub transcript: Transcript,
}

impl Rehearsal {
    pub fn new(heap: Global) -> Rehearsal
        ensures { string_bytes result.transcript.text ≡ [] }
    {
        Rehearsal {
            heap,
            lines: 0,
            stage: None,
            transcript: Transcript::new(heap),
        }
    }

    /// Plays the next line of the script.
    pub fn line(&mut self, bytes: &[u8]) -> Result<(), AllocError> {
        self.lines = self.lines.saturating_add(1);
        let played = match std::str::from_utf8(bytes) {
            Ok(text) => self.text(text),
            Err(_) => Err(ScriptError::NotText.into()),
        };
        self.tell(played)
    }

    /// Passes over the next line of the script, which was too long to be kept.
    pub fn long_line(&mut self) -> Result<(), AllocError> {
        self.lines = self.lines.saturating_add(1);
        self.tell(Err(ScriptError::TooLong.into()))
    }

    fn text(&mut self, text: &str) -> Result<(), Failure> {
        let line = Line::parse(text);
        match line {
            Ok(Line::Blank) => {}
            Ok(Line::Remark) => self.transcript.remark(text)?,
            Ok(Line::Begin(_) | Line::Do(_)) | Err(_) => self.transcript.echo(text)?,
        }
        self.perform(line?)
    }

    fn perform(&mut self, line: Line) -> Result<(), Failure> {
        match line {
            Line::Blank | Line::Remark => Ok(()),
            Line::Begin(quorum) => {
                self.stage = Some(Stage::new(self.heap, quorum)?);
                Ok(self.transcript.begins(quorum)?)
            }
            Line::Do(command) => {
                let stage = self.stage.as_mut().ok_or(ScriptError::NotBegun)?;
                stage.play(&mut self.transcript, command)
            }
        }
    }

    // A line that cannot be played is told, and the rest goes on.
    fn tell(&mut self, played: Result<(), Failure>) -> Result<(), AllocError> {
        match played {
            Ok(()) => Ok(()),
            Err(Failure::Memory(error)) => Err(error),
            Err(Failure::Script(error)) => self.transcript.turned_away(self.lines, error),
        }
    }
}
