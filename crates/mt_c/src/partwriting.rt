//! Parts of checkpoints, as they are being written: what is taken is whole blocks.
ghost use Rattle.std.specs.Prelude.{◌≡◌, ◌≢◌, ◌∷◌, ◌++◌, [], ℕ, List, Option, None, Some, map};
ghost use Rattle.mt_words.specs.declared.record.Change.{Change};
ghost use Rattle.mt_words.specs.Built.{entry_of};
ghost use Rattle.mt_record.specs.Given.{column_of};
ghost use Rattle.mt_writer.specs.PartFiles.{Part, IsPartOf, NoEntry, NoEnd};
ghost use Rattle.mt_c.specs.Formats.{part_header_4};
ghost use Rattle.mt_c.specs.Holding.{Holds};
ghost use Rattle.mt_c.specs.Keepers.{HoldsLent, HoldsSomeBytes};
ghost use Rattle.mt_c.specs.PartWriting.{HoldsPartWriter, IsPartWriter, IsPartRefusal, part_status};
ghost use Rattle.mt_c.specs.Statuses.{IsOneOf, IsRefusedUnless};
ghost use Rattle.mt_c.specs.declared.status.TheConstants.{DONE, MEMORY, WRONG, FULL};

use crate::held::Held;
use crate::lent::{Lent, lend};
use crate::place::Place;
use crate::status::{DONE, FULL, MEMORY, WRONG};
use mt_block::PartHeader;
use mt_record::Given;
use mt_writer::{PartWriter, PartWriterFault};
use std::alloc::Global;
use std::mem;

/// Begins part `part` of the `parts` parts of checkpoint `number`, which begins at the timestamp `begin`, in the empty place.
/// `WRONG`: the place is not empty.
#[unsafe(no_mangle)]
pub extern "C" fn mtr_part_begin(
    alloc: Global,
    writer: &mut Place,
    salt: u64,
    number: u32,
    begin: u64,
    part: u16,
    parts: u16,
) -> u32
    ensures done { result ≡ DONE → HoldsPartWriter (λ w. IsPartOf w None [] []) writer.new.handle.value }
    ensures header { result ≡ DONE → HoldsPartWriter (λ w. w.header ≡ part_header_4 salt number begin part parts) writer.new.handle.value }
    ensures kept { result ≢ DONE → writer.new.handle.value ≡ writer.old.handle.value }
    ensures certain { IsOneOf (DONE ∷ MEMORY ∷ WRONG ∷ []) result }
    ensures refused { IsRefusedUnless (writer.old.handle.value ≡ None) result }
{
    if !writer.is_empty() {
        return WRONG;
    }
    let header = PartHeader {
        salt,
        number,
        part,
        parts,
        begin,
    };
    match PartWriter::begin(alloc, header) {
        Ok(begun) => writer.begin(alloc, Held::PartWriter(begun)),
        Err(_) => MEMORY,
    }
}

/// Begins a part as `mtr_part_begin` does, whose keys are all to be above `above`, the last key of the part before it.
#[unsafe(no_mangle)]
pub extern "C" fn mtr_part_begin_above(
    alloc: Global,
    writer: &mut Place,
    salt: u64,
    number: u32,
    begin: u64,
    part: u16,
    parts: u16,
    above: &[u8],
) -> u32
    ensures done { result ≡ DONE → HoldsPartWriter (λ w. IsPartOf w (Some above.now) [] []) writer.new.handle.value }
    ensures header { result ≡ DONE → HoldsPartWriter (λ w. w.header ≡ part_header_4 salt number begin part parts) writer.new.handle.value }
    ensures kept { result ≢ DONE → writer.new.handle.value ≡ writer.old.handle.value }
    ensures certain { IsOneOf (DONE ∷ MEMORY ∷ WRONG ∷ []) result }
    ensures refused { IsRefusedUnless (writer.old.handle.value ≡ None) result }
{
    if !writer.is_empty() {
        return WRONG;
    }
    let header = PartHeader {
        salt,
        number,
        part,
        parts,
        begin,
    };
    match PartWriter::begin_above(alloc, header, above) {
        Ok(begun) => writer.begin(alloc, Held::PartWriter(begun)),
        Err(_) => MEMORY,
    }
}

/// Appends the entry of the key with these columns. `WRONG`: also if the part has ended, the key is not above the last one,
/// or no part of format 4 may have the entry.
#[unsafe(no_mangle)]
pub extern "C" fn mtr_part_entry(
    writer: &mut Place,
    version: u64,
    key: &[u8],
    columns: &[Given<'_>],
) -> u32
    ensures done { (above : Option (List ℕ)) (entries : List Change) (taken : List ℕ) → HoldsPartWriter (λ w. IsPartOf w above entries taken) writer.old.handle.value → result ≡ DONE →
        HoldsPartWriter (λ w. IsPartOf w above (entries ++ entry_of version key.now (map column_of columns.now) ∷ []) taken) writer.new.handle.value }
    ensures kept { result ≢ DONE → writer.new.handle.value ≡ writer.old.handle.value }
    ensures why { result ≢ DONE → IsPartRefusal (λ w. NoEntry w (entry_of version key.now (map column_of columns.now))) writer.old.handle.value result }
    ensures certain { IsOneOf (DONE ∷ MEMORY ∷ WRONG ∷ FULL ∷ []) result }
    ensures wrong { (Holds IsPartWriter writer.old.handle.value → ⊥) → result ≡ WRONG }
{
    let Some(held) = writer.held_mut() else {
        return WRONG;
    };
    let Held::PartWriter(part) = held else {
        return WRONG;
    };
    match part.entry(version, key, columns) {
        Ok(()) => DONE,
        Err(fault) => part_status(fault),
    }
}

/// Ends the part, whose checkpoint ends at the timestamp `end`. `WRONG`: also if the part has ended, or `end` is below its
/// begin.
#[unsafe(no_mangle)]
pub extern "C" fn mtr_part_end(writer: &mut Place, end: u64) -> u32
    ensures done { (above : Option (List ℕ)) (entries : List Change) (taken : List ℕ) → HoldsPartWriter (λ w. IsPartOf w above entries taken) writer.old.handle.value → result ≡ DONE →
        HoldsPartWriter (λ w. IsPartOf w above entries taken) writer.new.handle.value }
    ensures ended { result ≡ DONE → HoldsPartWriter (λ w. w.end ≡ Some end) writer.new.handle.value }
    ensures kept { result ≢ DONE → writer.new.handle.value ≡ writer.old.handle.value }
    ensures why { result ≢ DONE → IsPartRefusal (λ w. NoEnd w end) writer.old.handle.value result }
    ensures certain { IsOneOf (DONE ∷ MEMORY ∷ WRONG ∷ FULL ∷ []) result }
    ensures wrong { (Holds IsPartWriter writer.old.handle.value → ⊥) → result ≡ WRONG }
{
    let Some(held) = writer.held_mut() else {
        return WRONG;
    };
    let Held::PartWriter(part) = held else {
        return WRONG;
    };
    match part.end(end) {
        Ok(()) => DONE,
        Err(fault) => part_status(fault),
    }
}

/// Takes what is to be appended to the file of the part now. The place `buffer` is empty, or holds bytes of an earlier call.
/// It then holds the new bytes, which are lent to the caller. `WRONG`: also if `buffer` holds something else.
#[unsafe(no_mangle)]
pub extern "C" fn mtr_part_take(
    alloc: Global,
    writer: &mut Place,
    buffer: &mut Place,
    lent: &mut Lent,
) -> u32
    ensures done { (w : Part) (above : Option (List ℕ)) (entries : List Change) (taken : List ℕ) → HoldsPartWriter (λ held. (held ≡ w) × IsPartOf held above entries taken) writer.old.handle.value → result ≡ DONE →
        HoldsPartWriter (λ after. IsPartOf after above entries (taken ++ w.ready)) writer.new.handle.value }
    ensures rest { (w : Part) → HoldsPartWriter (λ held. held ≡ w) writer.old.handle.value → result ≡ DONE →
        HoldsPartWriter (λ after. after ≡ record w { ready = [] }) writer.new.handle.value }
    ensures bytes { (w : Part) → HoldsPartWriter (λ held. held ≡ w) writer.old.handle.value → result ≡ DONE → HoldsLent lent.new (λ bytes. bytes ≡ w.ready) buffer.new.handle.value }
    ensures kept { result ≢ DONE → (writer.new.handle.value ≡ writer.old.handle.value) × (buffer.new.handle.value ≡ buffer.old.handle.value) }
    ensures untold { result ≢ DONE → lent.new ≡ lent.old }
    ensures certain { IsOneOf (DONE ∷ MEMORY ∷ WRONG ∷ []) result }
    ensures refused { IsRefusedUnless (Holds IsPartWriter writer.old.handle.value × HoldsSomeBytes buffer.old.handle.value) result }
{
    let Some(held) = writer.held_mut() else {
        return WRONG;
    };
    let Held::PartWriter(part) = held else {
        return WRONG;
    };
    if let Some(held) = buffer.held_mut() {
        let Held::Bytes(bytes) = held else {
            return WRONG;
        };
        let spare = mem::replace(bytes, Vec::new(alloc));
        *bytes = part.take(spare);
        lend(bytes, lent);
        return DONE;
    }
    let Ok(mut held) = Box::new(alloc, Held::Log(None)) else {
        return MEMORY;
    };
    let taken = part.take(Vec::new(alloc));
    lend(&taken, lent);
    *held = Held::Bytes(taken);
    buffer.put(held);
    DONE
}

/// Returns the status that tells why a writer of a part refuses.
fn part_status(fault: PartWriterFault) -> u32
    ensures value { result ≡ part_status fault }
    ensures not_done { result ≢ DONE }
    ensures certain { IsOneOf (MEMORY ∷ WRONG ∷ FULL ∷ []) result }
{
    match fault {
        PartWriterFault::Ended
        | PartWriterFault::Lawless
        | PartWriterFault::Order
        | PartWriterFault::End => WRONG,
        PartWriterFault::Full => FULL,
        PartWriterFault::Memory => MEMORY,
    }
}
