//! Finishing a draft: borders that are still open are sealed, and nodes are stacked on all borders.
ghost use Rattle.std.specs.Prelude.{◌≡◌, ◌≢◌, MatchBool, ◌<◌, ◌≤◌, ◌+◌, ◌-◌, ◌++◌, ◌∷◌, [], suc, List, length, IfOk, OnOk};
ghost use Rattle.mt_words.specs.Walks.{joined};
ghost use Rattle.mt_tree.specs.Layer.{PlaceView, IsPlace};
ghost use Rattle.mt_tree.specs.Steps.Ranks.{IsRanked};
ghost use Rattle.mt_tree.specs.Borders.{layer_walk};
ghost use Rattle.mt_tree.specs.Nodes.{places, each_borders, IsNode, IsBorder, AreBelow, IsTreeCount};
ghost use Rattle.mt_tree.specs.Steps.Levels.{node_walk, borders_of, below_of, level_height};
ghost use Rattle.mt_tree.specs.Steps.Levels.{border_tree, first_of, parent_node, IsNodeAt, IsLevel, IsLevelAt};
ghost use Rattle.mt_tree.specs.declared.node.TheConstants.{MOST_CHILDREN};
ghost use Rattle.mt_tree.specs.Steps.Places.{views, view_of, below_link, below_links};
ghost use Rattle.mt_tree.specs.Steps.DraftViews.{border_view, layers_under, layers_of_border, HasLawfulLinks};
ghost use Rattle.mt_tree.specs.Steps.NodeViews.{trees_under};

use crate::layer::{Border, Layer};
use crate::node::{MOST_CHILDREN, Node, NodeKind};
use crate::place::{Content, Place};
use arrayvec::ArrayVec;
use mt_words::Memory;
use std::alloc::Global;
use std::mem;

/// Creates the node above these children. Err: out of memory.
fn parent(alloc: Global, children: Vec<Node>) -> Result<Node, Memory>
    requires level { IsLevel children.items }
    requires two { 2 ≤ length children.items }
    requires most { length children.items ≤ MOST_CHILDREN }
    ensures value { IfOk result (λ node. node ≡ parent_node children.items) }
    ensures lawful { IfOk result (λ node. IsNode node) }
{
    let mut separators = ArrayVec::new();
    for child in &children[1..] {
        separators.push(child.first_slice());
    }
    Ok(Node {
        kind: NodeKind::Interior(Box::new(alloc, separators)?, children),
    })
}

/// Returns whether `count` children get their parent now, if `left` more nodes follow. A single node is never left
/// over.
fn closes(count: usize, left: usize) -> bool
    ensures { MatchBool result
        ((left ≢ 0 → MOST_CHILDREN - 1 ≤ count) × (count ≡ MOST_CHILDREN - 1 → left ≢ 0 → left ≡ 2))
        ((left ≢ 0) × (count ≢ MOST_CHILDREN) × (count ≡ MOST_CHILDREN - 1 → left ≢ 2)) }
{
    left == 0 || count == MOST_CHILDREN || count == MOST_CHILDREN - 1 && left == 2
}

/// Returns the nodes one level up, of 2 to `MOST_CHILDREN` children each. Err: out of memory.
fn level_up(alloc: Global, nodes: Vec<Node>) -> Result<Vec<Node>, Memory>
    requires lawful { IsLevel nodes.items }
    requires two { 2 ≤ length nodes.items }
    ensures same { IfOk result (λ upper. borders_of upper.items ≡ borders_of nodes.items) }
    ensures below { IfOk result (λ upper. below_of upper.items ≡ below_of nodes.items) }
    ensures lawful { IfOk result (λ upper. IsLevel upper.items) }
    ensures fewer { IfOk result (λ upper. length upper.items < length nodes.items) }
    ensures some { IfOk result (λ upper. 1 ≤ length upper.items) }
{
    let mut left = nodes.len();
    let mut upper = Vec::with_capacity(alloc, left / MOST_CHILDREN + 1)?;
    let mut children: Vec<Node> = Vec::with_capacity(alloc, left.min(MOST_CHILDREN))?;
    for node in nodes {
        children.push(node)?;
        left -= 1;
        if closes(children.len(), left) {
            let next = Vec::with_capacity(alloc, left.min(MOST_CHILDREN))?;
            let node = parent(alloc, mem::replace(&mut children, next))?;
            upper.push(node)?;
        }
    }
    Ok(upper)
}

/// Stacks a tree on these borders and returns its root. Err: out of memory.
fn stack(alloc: Global, borders: Vec<Node>) -> Result<Node, Memory>
    requires lawful { IsLevelAt 0 borders.items }
    requires some { 1 ≤ length borders.items }
    ensures same { IfOk result (λ node. node.tree.borders ≡ borders_of borders.items) }
    ensures below { IfOk result (λ node. node.below ≡ below_of borders.items) }
    ensures lawful { IfOk result (λ node. IsNode node) }
{
    let mut nodes = borders;
    while nodes.len() > 1 {
        nodes = level_up(alloc, nodes)?;
    }
    Ok(nodes.remove(0))
}

/// What was made of a draft's layer, border or place, and the number of trees below its links, capped at the greatest
/// `u64`.
#[derive(Drop)]
pub(crate) struct Finished<T> {
    pub(crate) made: T,
    pub(crate) below: u64,
}

/// Finishes a layer into a tree: puts interior nodes over its borders. Err: out of memory.
#[cycle(finish)]
pub(crate) fn finish(alloc: Global, layer: Layer) -> Result<Finished<Node>, Memory>
    requires some { 1 ≤ length layer.borders }
    ensures same { IfOk result (λ tree. tree.made.tree.borders ≡ layer.borders) }
    ensures below { IfOk result (λ tree. each_borders tree.made.below ≡ layer.below) }
    ensures lawful { IfOk result (λ tree. IsNode tree.made) }
    ensures count { IfOk result (λ tree. IsTreeCount tree.made.below tree.below) }
{
    let mut nodes = Vec::with_capacity(alloc, layer.borders.len())?;
    let mut below = 0u64;
    for border in layer.borders {
        let border = finish_border(alloc, border)?;
        below = below.saturating_add(border.below);
        nodes.push(border.made)?;
    }
    let made = stack(alloc, nodes)?;
    Ok(Finished { made, below })
}

/// Finishes a border into a node. Err: out of memory.
#[cycle(finish)]
fn finish_border(alloc: Global, border: Border) -> Result<Finished<Node>, Memory>
    requires some { IsBorder (border_view border) }
    requires lawful { IsRanked (border_view border) }
    requires links { HasLawfulLinks border }
    ensures same { IfOk result (λ node. node.made.tree ≡ border_tree (border_view border)) }
    ensures below { IfOk result (λ node. each_borders node.made.below ≡ layers_of_border border) }
    ensures lawful { IfOk result (λ node. IsNode node.made) }
    ensures count { IfOk result (λ node. IsTreeCount node.made.below node.below) }
{
    let Finished { made, below } = close_border(alloc, border)?;
    let made = Node {
        kind: NodeKind::Border(made),
    };
    Ok(Finished { made, below })
}

/// Seals a border: returns its places, with all that lies below them finished. Err: out of memory.
#[cycle(finish)]
fn close_border(alloc: Global, border: Border) -> Result<Finished<Vec<Place<Node>>>, Memory>
    requires lawful { IsRanked (border_view border) }
    requires links { HasLawfulLinks border }
    ensures same { IfOk result (λ closed. views node_walk closed.made.items ≡ border_view border) }
    ensures layers { IfOk result (λ closed. each_borders (below_links trees_under closed.made.items) ≡ layers_of_border border) }
    ensures below { IfOk result (λ closed. AreBelow (views node_walk closed.made.items) (below_links trees_under closed.made.items)) }
    ensures count { IfOk result (λ closed. IsTreeCount (below_links trees_under closed.made.items) closed.below) }
{
    match border {
        Border::Open(places) => close(alloc, places),
        Border::Closed(closed) => Ok(closed),
    }
}

/// Seals places: returns them with all that lies below them finished. Err: out of memory.
#[cycle(finish)]
#[tactic(auto, using(crate::specs::Nodes::unlinked))]
pub(crate) fn close(
    alloc: Global,
    places: Vec<Place<Layer>>,
) -> Result<Finished<Vec<Place<Node>>>, Memory>
    requires { IsRanked (views layer_walk places.items) }
    ensures same { IfOk result (λ closed. views node_walk closed.made.items ≡ views layer_walk places.items) }
    ensures layers { IfOk result (λ closed. each_borders (below_links trees_under closed.made.items) ≡ below_links layers_under places.items) }
    ensures below { IfOk result (λ closed. AreBelow (views node_walk closed.made.items) (below_links trees_under closed.made.items)) }
    ensures count { IfOk result (λ closed. IsTreeCount (below_links trees_under closed.made.items) closed.below) }
{
    let mut made = Vec::with_capacity(alloc, places.len())?;
    let mut below = 0u64;
    for place in places {
        let place = finish_place(alloc, place)?;
        below = below.saturating_add(place.below);
        append(&mut made, place.made)?;
    }
    Ok(Finished { made, below })
}

/// Appends a place. Err: out of memory.
#[inline(always)]
fn append(places: &mut Vec<Place<Node>>, place: Place<Node>) -> Result<(), Memory>
    ensures { OnOk result (places.new.items ≡ places.old.items ++ place ∷ []) }
{
    match places.push(place) {
        Ok(()) => Ok(()),
        Err(refused) => {
            discard(refused.value);
            Err(Memory)
        }
    }
}

/// Drops a place. It is written out and inlined for speed: with a call in its stead, `close` is compiled to copy each
/// place by way of the stack.
#[inline(always)]
fn discard(place: Place<Node>) {
    match place.content {
        Content::Short(_, columns) => drop(columns),
        Content::Suffix(suffix, columns) => {
            drop(suffix);
            drop(columns);
        }
        Content::Link(node) => drop(node),
    }
}

/// Finishes a place, with all that lies below it. Err: out of memory.
#[cycle(finish)]
#[inline(always)]
fn finish_place(alloc: Global, place: Place<Layer>) -> Result<Finished<Place<Node>>, Memory>
    requires lawful { IsPlace (view_of layer_walk place) }
    ensures same { IfOk result (λ done. view_of node_walk done.made ≡ view_of layer_walk place) }
    ensures layers { IfOk result (λ done.
        each_borders (below_link trees_under done.made.content) ≡ below_link layers_under place.content) }
    ensures below { IfOk result (λ done. AreBelow (view_of node_walk done.made ∷ []) (below_link trees_under done.made.content)) }
    ensures count { IfOk result (λ done. IsTreeCount (below_link trees_under done.made.content) done.below) }
{
    let slice = place.slice;
    let (content, below) = match place.content {
        Content::Short(len, columns) => (Content::Short(len, columns), 0),
        Content::Suffix(suffix, columns) => (Content::Suffix(suffix, columns), 0),
        Content::Link(layer) => {
            let Finished { made, below } = finish(alloc, layer)?;
            (Content::Link(made), below.saturating_add(1))
        }
    };
    Ok(Finished {
        made: Place { slice, content },
        below,
    })
}
