// The value of a note.
ghost use Rattle.std.specs.Prelude.{◌≡◌, ◌<◌, ◌≤◌, length, MatchOption};
ghost use Rattle.std.specs.Str.{bytes_eq};
ghost use Rattle.std.proofs.Common.{rules};

/// The most bytes that a value has.
pub const LONGEST: usize = 64;

/// Up to 64 bytes, in place. What stands past the length is no part of it.
#[derive(Clone, Copy, Debug)]
pub struct Value {
    pub length: u8,
    pub bytes: [u8; 64],
    ghost fits: { length ≤ 64 },
}

impl Value {
    ghost use Rattle.notes.specs.Views.{bytes_of};

    /// The value with these bytes, unless they are too many.
    pub fn new(bytes: &[u8]) -> Option<Value>
        ensures { MatchOption result (64 < length bytes.now) (λ v. bytes_of v ≡ bytes.now) }
    {
        if bytes.len() > LONGEST {
            return None;
        }
        let mut all = [0; 64];
        all[0..bytes.len()].copy_from_slice(bytes);
        Some(Value {
            length: bytes.len() as u8,
            bytes: all,
        })
    }

    pub fn bytes(&self) -> &[u8]
        ensures { result.now ≡ bytes_of self.now }
    {
        &self.bytes[0..self.length as usize]
    }
}

// Two values are alike in what they have. What stands past the length is no part of them.
impl PartialEq for Value {
    ghost use Rattle.notes.specs.Views.{bytes_of};

    ghost eq = { λ a b. bytes_eq (bytes_of a) (bytes_of b) };

    ghost laws = { Prim.search rules };

    fn eq(&self, other: &Value) -> bool {
        self.bytes() == other.bytes()
    }
}

impl Eq for Value {
    ghost laws = { Prim.search rules };
}
