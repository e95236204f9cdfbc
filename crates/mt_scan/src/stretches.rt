//! Reads a log in stretches that end where records end, as far as their lengths tell.
ghost use Rattle.std.specs.Prelude.{◌≡◌, ◌⊎◌, ◌≤◌, ◌<◌, [], length, map, IfOk, OnOk, MatchBool};
ghost use Rattle.mt_scan.specs.Steps.Stretches.{HasReturned, IsOver, IsRead, ReadsOn};

use crate::source::Source;
use mt_record::Cutter;
use mt_words::Memory;
use std::alloc::Global;
use std::mem;

/// The least number of bytes of a stretch that is not the last.
const STRETCH: usize = 1 << 20;

/// The number of bytes that a stretch has at least if no record ends before.
const MOST: usize = 1 << 24;

/// A source that is read in stretches.
#[derive(Drop)]
pub(crate) struct Reader<S> {
    source: S,
    cutter: Cutter,
    /// The bytes that were read and are in no stretch yet.
    rest: Vec<u8>,
    /// Whether the source has ended.
    ended: bool,
    /// Whether the source has failed.
    pub(crate) failed: bool,
}

impl<S: Source> Reader<S> {
    /// Creates a reader of this source.
    pub(crate) fn new(alloc: Global, source: S) -> Reader<S>
        ensures { HasReturned S.seen (S.seen source) result [] }
    {
        let rest = Vec::new(alloc);
        Reader {
            source,
            cutter: Cutter::new(),
            rest,
            ended: false,
            failed: false,
        }
    }

    /// Reads the next stretches, at most this many. The first stretch of a log is its header. Err: out of memory.
    pub(crate) fn read(
        self,
        alloc: Global,
        count: usize,
    ) -> Result<(Reader<S>, Vec<Vec<u8>>), Memory>
        requires { 0 < count }
        ensures { IfOk result (λ read. IsRead S.seen self read.0 (map (λ stretch. stretch.items) read.1.items)) }
    {
        let mut reader = self;
        let mut stretches = Vec::new(alloc);
        'stretches: while stretches.len() < count {
            let stretch = reader.next()?;
            if stretch.is_empty() {
                return Ok((reader, stretches));
            }
            stretches.push(stretch)?;
        }
        Ok((reader, stretches))
    }

    /// Reads the next stretch. Returns an empty one if no bytes are left. Err: out of memory.
    fn next(&mut self) -> Result<Vec<u8>, Memory>
        ensures reads { IfOk result (λ stretch. ReadsOn S.seen self.old self.new stretch.items) }
        ensures none { IfOk result (λ stretch. stretch.items ≡ [] → IsOver self.new) }
    {
        let size = self.complete()?;
        let after = self.rest.split_off(size)?;
        Ok(mem::replace(&mut self.rest, after))
    }

    /// Reads on until a stretch is complete. Returns its length, which is 0 only if no bytes are left. Err: out of memory.
    fn complete(&mut self) -> Result<usize, Memory>
        ensures reads { OnOk result (ReadsOn S.seen self.old self.new []) }
        ensures within { IfOk result (λ size. size ≤ length self.new.rest.items) }
        ensures none { IfOk result (λ size. size ≡ 0 → IsOver self.new) }
    {
        let size = self.cut(STRETCH)?;
        if size > 0 {
            return Ok(size);
        }
        let size = self.cut(MOST)?;
        if size > 0 {
            return Ok(size);
        }
        Ok(self.rest.len())
    }

    /// Reads on until this many bytes are there, or no more come. Returns the length of the stretch at their front, or 0
    /// if none is complete. Err: out of memory.
    fn cut(&mut self, least: usize) -> Result<usize, Memory>
        ensures reads { OnOk result (ReadsOn S.seen self.old self.new []) }
        ensures full { OnOk result (least ≤ length self.new.rest.items ⊎ (self.new.rest.items ≡ [] → IsOver self.new)) }
        ensures within { IfOk result (λ size. size ≤ length self.new.rest.items) }
    {
        self.fill(least)?;
        Ok(self.cutter.next(&self.rest))
    }

    /// Reads on until this many bytes are there, or no more come. Err: out of memory.
    fn fill(&mut self, least: usize) -> Result<(), Memory>
        ensures reads { OnOk result (ReadsOn S.seen self.old self.new []) }
        ensures full { OnOk result (least ≤ length self.new.rest.items ⊎ (self.new.rest.items ≡ [] → IsOver self.new)) }
    {
        'pieces: while self.rest.len() < least {
            let more = self.read_piece()?;
            if !more {
                return Ok(());
            }
        }
        Ok(())
    }

    /// Reads the next chunk. Returns false if there is none: the source has ended or failed. Err: out of memory.
    fn read_piece(&mut self) -> Result<bool, Memory>
        ensures reads { OnOk result (ReadsOn S.seen self.old self.new []) }
        ensures more { IfOk result (λ more. MatchBool more ((S.seen self.new.source).bound < (S.seen self.old.source).bound) (self.new.rest.items ≡ [] → IsOver self.new)) }
    {
        if self.ended {
            return Ok(false);
        }
        if self.failed {
            return Ok(false);
        }
        match self.source.advance() {
            Ok(count) => {
                self.ended = count == 0;
                self.rest.extend_from_slice(self.source.piece())?;
                Ok(count > 0)
            }
            Err(_) => {
                self.failed = true;
                Ok(false)
            }
        }
    }
}
