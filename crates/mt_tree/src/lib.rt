//! The layered tree over keys, and its queries. The outermost layer orders keys by their first eight bytes. Longer keys
//! that share these continue in a layer below, which orders them by the next eight bytes.
//!
//! A `Draft` is a tree under construction. It takes pairs in key order, and drafts of neighbouring key ranges can be
//! joined. `Draft::finish` makes it a `Tree`, which finds a key, returns a range as `Hit`s, and takes a `Visitor`.
//!
//! ```
//! let mut draft = Draft::new(alloc);
//! draft.push(b"a", first)?;
//! draft.push(b"b", second)?;
//! let tree = draft.finish()?;
//! let columns = tree.get(b"a");
//! ```
//!
//! Begin with `tree.rt`; then `layer.rt` has drafts, and `node.rt` finished trees. `specs/Layer.antt` has the law of a
//! layer.
#![tactic(auto)]

mod finish;
mod hit;
mod layer;
mod node;
mod order;
mod place;
mod range;
mod tree;
mod visit;
mod wanted;

pub use hit::Hit;
pub use tree::{Draft, Tree, above};
pub use visit::Visitor;
pub use wanted::Wanted;
