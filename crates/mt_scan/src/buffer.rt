//! Buffers for the bytes of a chunk.
ghost use Rattle.std.specs.Prelude.{◌≡◌, ◌≤◌, ◌<◌, length, take, min, vec_len, [], IfOk, OnOk, OnErr};
ghost use Rattle.std.specs.Io.KnownBytes.{Consumes, IsAtEnd, Keeps};
ghost use Rattle.mt_scan.specs.Advancing.{Buffered};

use std::alloc::{AllocError, Global};
use std::io;
use std::io::Read;
use std::marker::Model;

/// The bytes of one chunk, and room for the longest chunk.
#[derive(Debug, Drop)]
pub struct Buffer {
    /// Its length is the size of the buffer. The chunk stands at its front.
    bytes: Vec<u8>,
    /// The length of the chunk.
    filled: usize,
}

impl Model for Buffer {
    ghost Value = { Buffered };

    ghost view = { λ b. record { size = vec_len b.bytes; shown = take b.filled b.bytes.items } };

    ghost invariant = { λ b. (0 < vec_len b.bytes) × (b.filled ≤ vec_len b.bytes) };
}

impl Buffer {
    /// Creates an empty buffer with room for `size` bytes. Err: out of memory.
    pub fn new(alloc: Global, size: usize) -> Result<Buffer, AllocError>
        requires { 1 ≤ size }
        ensures { IfOk result (λ buffer. buffer.size ≡ size) }
    {
        let bytes = vec![in alloc; 0; size]?;
        Ok(Buffer { bytes, filled: 0 })
    }

    /// Returns the chunk.
    pub fn piece(&self) -> &[u8]
        ensures { result.now ≡ self.now.shown }
    {
        &self.bytes[..self.filled]
    }

    /// Empties the chunk.
    pub fn clear(&mut self)
        ensures shown { self.new.shown ≡ [] }
        ensures size { self.new.size ≡ self.old.size }
    {
        self.filled = 0;
    }

    /// Fills the chunk with bytes from the front of `from`, as many as there is room for. Returns their number.
    pub fn fill(&mut self, from: &[u8]) -> usize
        ensures count { result ≡ min (length from.now) self.old.size }
        ensures shown { self.new.shown ≡ take result from.now }
        ensures size { self.new.size ≡ self.old.size }
        ensures room { 0 < self.old.size }
    {
        let count = from.len().min(self.bytes.len());
        overwrite_front(self.bytes.as_mut_slice(), &from[..count]);
        self.filled = count;
        count
    }

    /// Reads once from the reader into the chunk: at most `most` bytes, and at most what there is room for. Returns the
    /// number of bytes read. Err: the error of the reader.
    pub fn read_from<R: Read>(&mut self, reader: &mut R, most: u64) -> io::Result<usize>
        requires { 1 ≤ most }
        ensures count { IfOk result (λ n. n ≤ most) }
        ensures shown { IfOk result (λ n. length self.new.shown ≡ n) }
        ensures bytes { OnOk result (Consumes (R.remaining reader.old) (R.remaining reader.new) self.new.shown) }
        ensures end { IfOk result (λ n. n ≡ 0 → IsAtEnd (R.remaining reader.new)) }
        ensures unread { OnErr result (Keeps (R.remaining reader.old) (R.remaining reader.new)) }
        ensures size { self.new.size ≡ self.old.size }
    {
        let wanted = most.min(self.bytes.len() as u64) as usize;
        let count = read_front(self.bytes.as_mut_slice(), wanted, reader)?;
        self.filled = count;
        Ok(count)
    }
}

/// Reads once into the first `wanted` bytes, and returns the number of bytes read. Err: the error of the reader.
fn read_front<R: Read>(bytes: &mut [u8], wanted: usize, reader: &mut R) -> io::Result<usize>
    requires least { 1 ≤ wanted }
    requires most { wanted ≤ length bytes.old }
    ensures count { IfOk result (λ n. n ≤ wanted) }
    ensures bytes { IfOk result (λ n. Consumes (R.remaining reader.old) (R.remaining reader.new) (take n bytes.new)) }
    ensures end { IfOk result (λ n. n ≡ 0 → IsAtEnd (R.remaining reader.new)) }
    ensures unread { OnErr result (Keeps (R.remaining reader.old) (R.remaining reader.new)) }
{
    let (front, _) = bytes.split_at_mut(wanted);
    reader.read(front)
}

/// Copies `from` over the first bytes.
fn overwrite_front(bytes: &mut [u8], from: &[u8])
    requires { length from.now ≤ length bytes.old }
    ensures { take (length from.now) bytes.new ≡ from.now }
{
    let (front, _) = bytes.split_at_mut(from.len());
    front.copy_from_slice(from);
}
