//! Sources: bytes that come chunk by chunk.
ghost use Rattle.std.specs.Prelude.{◌≡◌};
ghost use Rattle.mt_scan.specs.Sources.{Seen};
ghost use Rattle.mt_scan.specs.Advancing.{Advances};

use thiserror::Error;

/// The reason why a source returns no more bytes.
#[derive(Clone, Copy, Debug, PartialEq, Eq, Error)]
pub enum SourceFault {
    /// A read error of the device, or of what stands for it.
    #[error("device failed")]
    Device = 1,
    /// There are more bytes than the source may return.
    #[error("too long")]
    TooLong = 2,
}

/// A source of bytes that come chunk by chunk and are read once.
pub trait Source: Drop {
    /// What contracts see of the source: the bytes still to come, if they are known, and how it may fail.
    ghost seen: { Self → Seen };

    /// Readies the next chunk. `Ok(n)`, n at least 1: `piece` returns the next n bytes. `Ok(0)`: no bytes are left.
    /// Err: there is no chunk, and every later call is an Err too.
    fn advance(&mut self) -> Result<usize, SourceFault>
        ensures { Advances (seen self.old) (seen self.new) result };

    /// Returns the chunk that the last `advance` readied. It is empty before the first `advance` and after an Err.
    fn piece(&self) -> &[u8]
        ensures { result.now ≡ (seen self.now).shown };
}

/// A boxed source acts as the source in the box, whatever its type. Only a source that borrows nothing can be boxed so.
/// To use sources of several kinds together that borrow, put them into an enum that is a `Source`.
impl Source for Box<dyn Source + Send> {
    ghost seen = { λ b. (Source-box b).seen b.value };

    fn advance(&mut self) -> Result<usize, SourceFault> {
        (**self).advance()
    }

    fn piece(&self) -> &[u8] {
        (**self).piece()
    }
}
