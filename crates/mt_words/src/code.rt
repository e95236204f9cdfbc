//! The codes of changes: the byte that a change begins with, and what the byte means.
ghost use Rattle.std.specs.Prelude.{◌≡◌, ◌≢◌, ◌↔◌, IsTrue, IfSome, IfNone};
ghost use Rattle.mt_words.specs.declared.code.Code.{Code as AnyCode};
ghost use Rattle.mt_words.specs.Codes.{byte_of, payload_of, Clears};

/// The code of a change.
///
/// | code | byte | payload | clears its key | found in |
/// |---|---|---|---|---|
/// | `Whole` | 0 | columns | yes | entries of a checkpoint, never records |
/// | `Put` | 1 | columns | no | records |
/// | `Remove` | 2 | nothing | yes | records |
/// | `Erase` | 4 | column numbers | no | records, from format 2 on |
///
/// Byte 3 is the byte of a mark, a record that changes nothing.
#[derive(Clone, Copy, Debug)]
pub enum Code {
    /// All columns of a key: the entry of a checkpoint.
    Whole = 0,
    /// Some columns of a key.
    Put = 1,
    /// The removal of all columns of a key.
    Remove = 2,
    /// The removal of some columns of a key.
    Erase = 4,
}

/// The payload of a change, which comes after its key.
#[derive(Clone, Copy, Debug)]
pub enum Payload {
    /// Nothing.
    Nothing,
    /// Columns, after a byte with their count.
    Columns,
    /// Column numbers, after a byte with their count.
    Numbers,
}

impl Code {
    /// Returns the byte of the code.
    pub fn byte(self) -> u8
        ensures { result ≡ byte_of self }
    {
        self as u8
    }

    /// Returns the code with this byte, or None if no code has it.
    pub fn of_byte(byte: u8) -> Option<Code>
        ensures found { IfSome result (λ code. byte_of code ≡ byte) }
        ensures none { IfNone result ((code : AnyCode) → byte_of code ≢ byte) }
    {
        match byte {
            0 => Some(Code::Whole),
            1 => Some(Code::Put),
            2 => Some(Code::Remove),
            4 => Some(Code::Erase),
            _ => None,
        }
    }

    /// Returns the payload of a change with this code.
    pub fn payload(self) -> Payload
        ensures { result ≡ payload_of self }
    {
        match self {
            Code::Whole | Code::Put => Payload::Columns,
            Code::Remove => Payload::Nothing,
            Code::Erase => Payload::Numbers,
        }
    }

    /// Returns whether a change with this code clears all columns of its key before it sets its own.
    pub fn clears(self) -> bool
        ensures { IsTrue result ↔ Clears self }
    {
        match self {
            Code::Whole | Code::Remove => true,
            Code::Put | Code::Erase => false,
        }
    }
}
