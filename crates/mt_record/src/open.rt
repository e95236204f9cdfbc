//! Opens a file of format 4 whose bytes are all in memory.
ghost use Rattle.std.specs.Prelude.{◌≡◌, ◌⊎◌, ◌++◌, [], ◌∷◌, List, ℕ, IfOk, IfErr, OnOk, MatchOption};
ghost use Rattle.mt_block.specs.Blocks.{IsCut, IsBroken};
ghost use Rattle.mt_record.specs.Opening.{IsSealed};
ghost use Rattle.mt_record.specs.Answered.{IsAnswered};
ghost use Rattle.mt_record.specs.OpenFiles.{IsFileEnd, IsOpened};

use crate::encode::encode_log_header_3;
use crate::feed::head::is_sealed;
use crate::read::FeedFault;
use mt_block::{Header, has_some_head, header_at, next_block};
use mt_words::Memory;
use std::alloc::Global;

/// What follows the blocks of a file.
#[derive(Clone, Copy, Debug, PartialEq, Eq)]
pub enum FileEnd {
    Nothing,
    /// A torn end, as a crash leaves one.
    Torn,
    /// Something damaged, and further blocks.
    Damaged,
}

/// Where a block stands.
#[derive(Clone, Copy, Debug, PartialEq, Eq)]
pub struct BlockAt {
    /// The byte of the file at which it begins.
    pub file: usize,
    /// The byte of the text at which its body begins.
    pub text: usize,
}

/// A file of format 4 that was opened.
#[derive(Debug, Drop)]
pub struct OpenedFile {
    pub header: Header,
    /// Its text: the header of a segment, and what stands in the blocks, one after the other.
    pub text: Vec<u8>,
    /// Its blocks, in order.
    pub blocks: Vec<BlockAt>,
    pub end: FileEnd,
}

/// Returns the text of a file of format 4, up to its end or the first damage. Returns None if the bytes are no file of
/// format 4, and so their own text.
/// Err: the bytes begin with the magic of format 4 but with no header, or `Memory` if an allocation failed.
pub fn open_file(alloc: Global, bytes: &[u8]) -> Result<Option<OpenedFile>, FeedFault>
    ensures opened { IfOk result (λ found. MatchOption found (IsSealed bytes.now → ⊥) (IsOpened bytes.now)) }
    ensures fault { IfErr result (IsAnswered bytes.now) }
{
    if !is_sealed(bytes) {
        return Ok(None);
    }
    let Some((header, behind)) = header_at(bytes) else {
        return Err(FeedFault::Header);
    };
    let mark = header.mark();
    let mut text = Vec::new(alloc);
    encode_log_header_3(header.from, header.worker, header.segment, &mut text)?;
    let mut blocks = Vec::new(alloc);
    let mut rest = behind;
    'read: loop {
        match next_block(mark, rest) {
            Ok(Some((body, after))) => {
                let file = bytes.len() - rest.len();
                let at = BlockAt {
                    file,
                    text: text.len(),
                };
                add_block(&mut blocks, &mut text, at, body)?;
                rest = after;
            }
            Ok(None) => {
                let end = end_at(rest);
                return Ok(Some(OpenedFile {
                    header,
                    text,
                    blocks,
                    end,
                }));
            }
            Err(behind) => {
                let end = end_behind(mark, behind);
                return Ok(Some(OpenedFile {
                    header,
                    text,
                    blocks,
                    end,
                }));
            }
        }
    }
}

/// Returns what the rest is, which is empty or the beginning of a block.
fn end_at(rest: &[u8]) -> FileEnd
    ensures { (mark : ℕ) → (rest.now ≡ []) ⊎ IsCut mark rest.now → IsFileEnd mark rest.now result }
{
    if rest.is_empty() {
        FileEnd::Nothing
    } else {
        FileEnd::Torn
    }
}

/// Returns what the rest is, which is broken. `behind` are the bytes after what is broken.
fn end_behind(mark: u32, behind: &[u8]) -> FileEnd
    ensures { (rest : List ℕ) → IsBroken mark rest behind.now → IsFileEnd mark rest result }
{
    if has_some_head(mark, behind) {
        FileEnd::Damaged
    } else {
        FileEnd::Torn
    }
}

/// Appends a block and its body. Err: out of memory.
fn add_block(
    blocks: &mut Vec<BlockAt>,
    text: &mut Vec<u8>,
    at: BlockAt,
    body: &[u8],
) -> Result<(), Memory>
    ensures blocks { OnOk result (blocks.new.items ≡ blocks.old.items ++ at ∷ []) }
    ensures text { OnOk result (text.new.items ≡ text.old.items ++ body.now) }
{
    blocks.push(at)?;
    Ok(text.extend_from_slice(body)?)
}
