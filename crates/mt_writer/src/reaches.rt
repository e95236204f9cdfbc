//! How far all logs are synced.
ghost use Rattle.std.specs.Prelude.{◌≤◌, List, Contains, EachIndex, slice_index};
ghost use Rattle.std.specs.List.{AllZip};
ghost use Rattle.mt_writer.specs.Files.{OpenFile};
ghost use Rattle.mt_writer.specs.Journals.{IsReached};

/// Returns the least of the reaches of all logs. An update below it may be acknowledged. An earlier reach of a log may
/// stand for its reach now, which is no less.
pub fn least_reach(reaches: &[u64]) -> u64
    ensures least { EachIndex reaches.now (λ k. result ≤ slice_index reaches.now k) }
    ensures reached { (files : List OpenFile) → AllZip IsReached reaches.now files → (file : OpenFile) → Contains files file → IsReached result file }
{
    let mut least = u64::MAX;
    for reach in reaches {
        least = least.min(*reach);
    }
    least
}
