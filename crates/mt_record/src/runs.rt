//! Cuts the records of a log into small blocks.
ghost use Rattle.std.specs.Prelude.{◌≡◌, ◌<◌, ◌++◌, List, ℕ, length, OnOk};
ghost use Rattle.mt_record.specs.Steps.Runs.{AreFitting, AreSmallBlocks, IsRun};

use crate::feed::frame::frame_wanted;
use mt_block::{SMALL_BODY, append_block};
use mt_words::Memory;

/// Appends blocks of these records, in the file with this mark. Each block has whole records: at most `SMALL_BODY` bytes of
/// them, or one longer record. Err: out of memory; some of the blocks may be appended.
pub fn append_small_blocks(mark: u32, records: &[u8], out: &mut Vec<u8>) -> Result<(), Memory>
    requires { AreFitting records.now }
    ensures { OnOk result ((sealed : List ℕ) × AreSmallBlocks mark records.now sealed × (out.new.items ≡ out.old.items ++ sealed)) }
{
    let mut rest = records;
    'runs: while !rest.is_empty() {
        let (run, after) = rest.split_at(run_size(rest));
        append_block(mark, run, out)?;
        rest = after;
    }
    Ok(())
}

/// Returns how many bytes of these records, at their front, one block has.
fn run_size(records: &[u8]) -> usize
    requires records { AreFitting records.now }
    requires some { 0 < length records.now }
    ensures { IsRun records.now result }
{
    let mut size = frame_wanted(records);
    'next: while size < records.len() {
        let more = size + frame_wanted(&records[size..]);
        if more > SMALL_BODY as usize {
            break;
        }
        size = more;
    }
    size
}
