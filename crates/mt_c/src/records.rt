//! Records of logs.
ghost use Rattle.std.specs.Prelude.{◌≡◌, ◌≢◌, ◌∷◌, [], map};
ghost use Rattle.mt_words.specs.Changes.{changed, IsLogged};
ghost use Rattle.mt_words.specs.Built.{mark_of, put_of, remove_of, erase_of};
ghost use Rattle.mt_record.specs.Given.{column_of, kind_of, change_of};
ghost use Rattle.mt_record.specs.Spelling.{spelling};
ghost use Rattle.mt_c.specs.declared.status.TheConstants.{DONE, WRONG, SHORT};
ghost use Rattle.mt_c.specs.Buffers.{Writes};
ghost use Rattle.mt_c.specs.Formats.{FitsLog};
ghost use Rattle.mt_c.specs.Statuses.{IsOneOf, IsRefusedUnless};

use crate::buffer::write_joined;
use crate::formats::records_of;
use crate::given::write_record;
use crate::status::WRONG;
use mt_record::{Given, GivenChange, GivenKind};

/// The length of a mark's body, which stands before and after it.
const MARK_LENGTH: [u8; 4] = [0, 0, 0, 9];

/// Writes a mark to the beginning of `out`, and its length to `count`.
#[unsafe(no_mangle)]
#[tactic(auto, using(crate::proofs::Marks::mark_joined))]
pub extern "C" fn mtr_mark(time: u64, out: &mut [u8], count: &mut usize) -> u32
    ensures written { Writes (spelling (mark_of time)) out.old out.new count.new result }
    ensures certain { IsOneOf (DONE ∷ SHORT ∷ []) result }
{
    let [a, b, c, d] = MARK_LENGTH;
    write_joined(
        &[a, b, c, d, 3],
        &time.to_be_bytes(),
        &MARK_LENGTH,
        out,
        count,
    )
}

/// Writes a put of these columns of the key to the beginning of `out`, and its length to `count`. `WRONG`: there is no
/// log of this format, or it may not have the put.
#[unsafe(no_mangle)]
pub extern "C" fn mtr_put(
    format: u32,
    time: u64,
    version: u64,
    key: &[u8],
    columns: &[Given<'_>],
    out: &mut [u8],
    count: &mut usize,
) -> u32
    ensures written { Writes (spelling (put_of time version key.now (map column_of columns.now))) out.old out.new count.new result }
    ensures certain { IsOneOf (DONE ∷ WRONG ∷ SHORT ∷ []) result }
    ensures refused { IsRefusedUnless (FitsLog format (put_of time version key.now (map column_of columns.now))) result }
    ensures untold { result ≢ DONE → result ≢ SHORT → count.new ≡ count.old }
{
    let put = GivenChange {
        version,
        key,
        kind: GivenKind::Put(columns),
    };
    write_change(format, time, put, out, count)
}

/// Writes a remove of the key to the beginning of `out`, and its length to `count`. `WRONG`: there is no log of this
/// format, or it may not have the remove.
#[unsafe(no_mangle)]
pub extern "C" fn mtr_remove(
    format: u32,
    time: u64,
    version: u64,
    key: &[u8],
    out: &mut [u8],
    count: &mut usize,
) -> u32
    ensures written { Writes (spelling (remove_of time version key.now)) out.old out.new count.new result }
    ensures certain { IsOneOf (DONE ∷ WRONG ∷ SHORT ∷ []) result }
    ensures refused { IsRefusedUnless (FitsLog format (remove_of time version key.now)) result }
    ensures untold { result ≢ DONE → result ≢ SHORT → count.new ≡ count.old }
{
    let remove = GivenChange {
        version,
        key,
        kind: GivenKind::Remove,
    };
    write_change(format, time, remove, out, count)
}

/// Writes an erase of the columns of the key that have these numbers to the beginning of `out`, and its length to
/// `count`. `WRONG`: there is no log of this format, or it may not have the erase.
#[unsafe(no_mangle)]
pub extern "C" fn mtr_erase(
    format: u32,
    time: u64,
    version: u64,
    key: &[u8],
    numbers: &[u8],
    out: &mut [u8],
    count: &mut usize,
) -> u32
    ensures written { Writes (spelling (erase_of time version key.now numbers.now)) out.old out.new count.new result }
    ensures certain { IsOneOf (DONE ∷ WRONG ∷ SHORT ∷ []) result }
    ensures refused { IsRefusedUnless (FitsLog format (erase_of time version key.now numbers.now)) result }
    ensures untold { result ≢ DONE → result ≢ SHORT → count.new ≡ count.old }
{
    let erase = GivenChange {
        version,
        key,
        kind: GivenKind::Erase(numbers),
    };
    write_change(format, time, erase, out, count)
}

/// Writes the record of this change to the beginning of `out`, and its length to `count`. `WRONG`: there is no log of
/// this format, or it may not have the record.
fn write_change(
    format: u32,
    time: u64,
    given: GivenChange<'_>,
    out: &mut [u8],
    count: &mut usize,
) -> u32
    requires { IsLogged (kind_of given.kind) }
    ensures written { Writes (spelling (changed time (change_of given.entry))) out.old out.new count.new result }
    ensures certain { IsOneOf (DONE ∷ WRONG ∷ SHORT ∷ []) result }
    ensures refused { IsRefusedUnless (FitsLog format (changed time (change_of given.entry))) result }
    ensures untold { result ≢ DONE → result ≢ SHORT → count.new ≡ count.old }
{
    let Some(format) = records_of(format) else {
        return WRONG;
    };
    if !given.fits(format) {
        return WRONG;
    }
    write_record(time, given, out, count)
}
