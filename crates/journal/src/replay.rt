// What a party does with the records of its file.
ghost use Rattle.std.specs.Prelude.{OnOk};
ghost use Rattle.frames.specs.Format.{Frame as Record, Fits};
ghost use Rattle.frames.specs.Views.{frame_of};

use frames::frame::Frame;
use storage::fault::Fault;

pub trait Replay {
    // What it has become by a record.
    ghost replays: { Self → Record → Self → Type 0 };

    /// Takes a record as it took what the record was made of. Where there is no memory for it, what becomes of it is left open.
    fn replay(&mut self, frame: Frame<'_>) -> Result<(), Fault>
        requires { Fits (frame_of frame) }
        ensures { OnOk result (replays self.old (frame_of frame.entry) self.new) };
}
