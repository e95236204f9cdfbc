//! Reads and writes logs and parts of checkpoints as bytes, in all formats.
//!
//! `LogFeed` and `PartFeed` read input that comes in chunks, and return a `LogText` or a `PartText`, or the one fault
//! of the bytes. They decode records and entries, or keep their validated bytes (`KeptRecords`, `KeptEntries`). `Lent`
//! is an update borrowed from kept bytes. A `Text` is one with its origin as bytes; `Bodies` and `Stream` are lists of
//! texts. The functions `encode_..` write.
//!
//! ```
//! let mut log = Vec::new(alloc);
//! encode_log_header(0, &mut log)?;
//! encode_record(&Record::mark(5), &mut log)?;
//! // One record, and no torn tail.
//! let text = read_log(alloc, &log)?;
//! ```
//!
//! Begin with `read.rt`, `feed/log_feed.rt` and `specs/Logs.antt`, which says which bytes are a log. Both feeds share
//! `feed.rt`.
#![tactic(auto)]

mod body;
mod chain;
mod encode;
mod feed;
mod front;
mod in_memory;
mod kept;
mod key_order;
mod laws;
mod open;
mod part_front;
mod part_text;
mod read;
mod resume;
mod runs;
mod salvage;

pub use body::lent::Lent;
pub use body::lent_writes::LentWrites;
pub use chain::keep_most;
pub use encode::given::{Given, GivenChange, GivenKind, encode_given, encode_given_entry};
pub use encode::parts::{
    encode_entry, encode_part, encode_part_2, encode_part_footer, encode_part_header,
};
pub use encode::{encode_log_header, encode_log_header_2, encode_log_header_3, encode_record};
pub use feed::cutter::Cutter;
pub use feed::head::{Head, Segment, header_at, is_sealed};
pub use feed::log_feed::LogFeed;
pub use feed::part_feed::PartFeed;
pub use feed::part_head::{FOOTER_BYTES, PART, PART_HEADER_BYTES, is_sealed_part, part_header_at};
pub use front::{LogFront, Rest};
pub use in_memory::bodies::body_of_update;
pub use kept::bodies::Bodies;
pub use kept::log::{Dropped, KeptRecords};
pub use kept::part::KeptEntries;
pub use kept::share::Share;
pub use kept::stream::Stream;
pub use kept::text::Text;
pub use kept::updates::Updates;
pub use key_order::{comes_before, is_below_by};
pub use laws::{one_part, one_reading, one_salvage};
pub use open::{BlockAt, FileEnd, OpenedFile, open_file};
pub use part_front::{entry_at, footer_of};
pub use part_text::{PartFault, PartHead, PartText};
pub use read::{FeedFault, LogText, MOST_BYTES, cut_log, log_front, read_log, record_at};
pub use resume::{ResumedLog, encode_head, resume_log};
pub use salvage::{ENOUGH_ITEMS, Found, Items, encode_salvaged_part, find_items, records_below};
