// A tree of deliveries in one vector of nodes.
ghost use Rattle.cq_items.specs.OutsValue.{held_at, no_delivery};
ghost use Rattle.cq_items.specs.Tree.{helds, hung, is_wanted, link, node_at, relinked, turn, way, IsEnd, IsFound, IsHung, IsLeafBelow, IsTaken, IsTree, IsUnlinked};
ghost use Rattle.std.specs.Prelude.{◌≡◌, ◌<◌, ◌≤◌, ◌-◌, ◌^◌, ◌++◌, ◌∷◌, [], ℕ, Bool, false, None, Some, IsSome, length, swap_remove, vec_capacity};

use crate::outs::Held;

/// How many levels a tree has below its first: one for each bit of a client and of a number.
const LEVELS: u32 = 64;

/// A node of the tree.
#[derive(Clone, Copy, Debug)]
pub(crate) struct Node {
    pub(crate) held: Held,
    /// How many nodes are above it, and by which bit of a delivery the way goes on to its left or right.
    level: u32,
    /// The index of the node below on the left; 0 where there is none.
    left: u32,
    right: u32,
}

/// Whether the way of a delivery turns right at a level. So ways part by the bits of the client, and then of the number.
fn turns_right(level: u32, client: u32, delivery: u32) -> bool
    requires { level < 64 }
    ensures { (at : ℕ) → result ≡ turn level (record { client = client; delivery = delivery; at = at }) }
{
    if level < 32 {
        (client >> level) & 1 == 1
    } else {
        (delivery >> (level - 32)) & 1 == 1
    }
}

/// Whether a delivery is this one of this client, or any of this client.
fn is_wanted(held: &Held, client: u32, delivery: u32, any: bool) -> bool
    ensures { result ≡ is_wanted any client delivery held.now }
{
    held.client == client && (any || held.delivery == delivery)
}

/// The index of the node below on the right or on the left; 0 where there is none.
fn below(node: &Node, right: bool) -> u32
    ensures { result ≡ link right node.now }
{
    if right { node.right } else { node.left }
}

/// Where the search for a delivery of a client, or for any of its, ends: at the first such node, or where the way ends.
pub(crate) fn end_of(nodes: &[Node], client: u32, delivery: u32, any: bool) -> usize
    requires tree { IsTree nodes.now }
    requires some { 0 < length nodes.now }
    ensures { IsEnd nodes.now any client delivery result }
{
    let mut at = 0;
    for level in 0..LEVELS {
        let node = &nodes[at];
        if is_wanted(&node.held, client, delivery, any) {
            return at;
        }
        let next = below(node, turns_right(level, client, delivery));
        if next == 0 {
            return at;
        }
        at = next as usize;
    }
    at
}

/// The index of the node at a level of a delivery's way.
fn node_on_way(nodes: &[Node], held: Held, level: u32) -> usize
    requires tree { IsTree nodes.now }
    requires some { 0 < length nodes.now }
    requires depth { level ≤ 64 }
    requires there { IsSome (way nodes.now held level) }
    ensures { way nodes.now held level ≡ Some result }
{
    let mut at = 0;
    for passed in 0..level {
        let right = turns_right(passed, held.client, held.delivery);
        at = below(&nodes[at], right) as usize;
    }
    at
}

/// The index of the node above this one. The first one has none above it and is told itself.
fn above(nodes: &[Node], at: usize) -> usize
    requires tree { IsTree nodes.now }
    requires within { at < length nodes.now }
    ensures within { result < length nodes.now }
    ensures on_way { way nodes.now (node_at nodes.now at).held ((node_at nodes.now at).level - 1) ≡ Some result }
{
    let node = nodes[at];
    node_on_way(nodes, node.held, node.level.saturating_sub(1))
}

/// The index of a leaf below this node, or its own where it is a leaf.
fn leaf_below(nodes: &[Node], at: usize) -> usize
    requires tree { IsTree nodes.now }
    requires within { at < length nodes.now }
    ensures { IsLeafBelow nodes.now at result }
{
    let mut leaf = at;
    for passed in 0..LEVELS {
        let next = nodes[leaf].left.max(nodes[leaf].right);
        if next == 0 {
            return leaf;
        }
        leaf = next as usize;
    }
    leaf
}

/// A node with none below it.
fn leaf(held: Held, level: u32) -> Node
    ensures { result ≡ record { held = held; level = level; left = 0; right = 0 } }
{
    Node {
        held,
        level,
        left: 0,
        right: 0,
    }
}

/// Hangs a node under this one, on the right or on the left.
fn hang(node: &mut Node, right: bool, next: u32)
    ensures { node.new ≡ hung right next node.old }
{
    if right {
        node.right = next;
    } else {
        node.left = next;
    }
}

/// The index that a link has, where nodes that had one index have another one now.
fn relinked(link: u32, from: u32, to: u32) -> u32
    ensures { result ≡ relinked from to link }
{
    if link == from { to } else { link }
}

/// The links that led to one index lead to another one now, or nowhere.
fn relink(node: &mut Node, from: u32, to: u32)
    ensures { node.new ≡ record node.old { left = relinked from to node.old.left; right = relinked from to node.old.right } }
{
    node.left = relinked(node.left, from, to);
    node.right = relinked(node.right, from, to);
}

/// Hangs the next node under the last one on the way of this delivery, which is no node's, and tells its level.
fn hang_next(nodes: &mut [Node], client: u32, delivery: u32) -> u32
    requires tree { IsTree nodes.old }
    requires some { 0 < length nodes.old }
    requires few { length nodes.old < 2 ^ 32 }
    requires fresh { IsFound false client delivery (helds nodes.old) None }
    ensures { IsHung nodes.old nodes.new client delivery result }
{
    let next = nodes.len() as u32;
    let above = end_of(nodes, client, delivery, false);
    let level = nodes[above].level;
    hang(
        &mut nodes[above],
        turns_right(level, client, delivery),
        next,
    );
    level + 1
}

/// One more delivery, which isn't there yet.
pub(crate) fn put(nodes: &mut Vec<Node>, client: u32, delivery: u32, at: u32)
    requires tree { IsTree nodes.old.items }
    requires room { length nodes.old.items < vec_capacity nodes.old }
    requires few { length nodes.old.items < 2 ^ 32 }
    requires fresh { IsFound false client delivery (helds nodes.old.items) None }
    ensures tree { IsTree nodes.new.items }
    ensures held { helds nodes.new.items ≡ helds nodes.old.items ++ record { client = client; delivery = delivery; at = at } ∷ [] }
    ensures capacity { vec_capacity nodes.new ≡ vec_capacity nodes.old }
{
    let held = Held {
        client,
        delivery,
        at,
    };
    if nodes.is_empty() {
        nodes.push_reserved(leaf(held, 0));
        return;
    }
    let level = hang_next(nodes, client, delivery);
    nodes.push_reserved(leaf(held, level));
}

/// Neither a leaf nor the last node has a link that leads to it; that to the last leads to the leaf's index.
fn unlink(nodes: &mut [Node], leaf: usize)
    requires tree { IsTree nodes.old }
    requires some { 1 < length nodes.old }
    requires within { leaf < length nodes.old }
    requires few { length nodes.old ≤ 2 ^ 32 }
    requires ends { (right : Bool) → link right (node_at nodes.old leaf) ≡ 0 }
    ensures { IsUnlinked nodes.old nodes.new leaf }
{
    let last = nodes.len() - 1;
    let above_leaf = above(nodes, leaf);
    let above_last = above(nodes, last);
    relink(&mut nodes[above_leaf], leaf as u32, 0);
    relink(&mut nodes[above_last], last as u32, leaf as u32);
}

/// Takes a leaf out; the last node gets its index.
fn remove_leaf(nodes: &mut Vec<Node>, leaf: usize)
    requires tree { IsTree nodes.old.items }
    requires within { leaf < length nodes.old.items }
    requires ends { (right : Bool) → link right (node_at nodes.old.items leaf) ≡ 0 }
    requires few { length nodes.old.items ≤ 2 ^ 32 }
    ensures tree { IsTree nodes.new.items }
    ensures held { helds nodes.new.items ≡ swap_remove (helds nodes.old.items) leaf no_delivery }
    ensures capacity { vec_capacity nodes.new ≡ vec_capacity nodes.old }
{
    if nodes.len() == 1 {
        nodes.clear();
        return;
    }
    unlink(nodes, leaf);
    nodes.swap_remove(leaf);
}

/// Takes a delivery out.
pub(crate) fn remove(nodes: &mut Vec<Node>, at: usize) -> Held
    requires tree { IsTree nodes.old.items }
    requires within { at < length nodes.old.items }
    requires few { length nodes.old.items ≤ 2 ^ 32 }
    ensures tree { IsTree nodes.new.items }
    ensures held { result ≡ held_at (helds nodes.old.items) at }
    ensures taken { IsTaken (helds nodes.old.items) (helds nodes.new.items) at }
    ensures capacity { vec_capacity nodes.new ≡ vec_capacity nodes.old }
{
    let taken = nodes[at].held;
    let leaf = leaf_below(nodes, at);
    nodes[at].held = nodes[leaf].held;
    remove_leaf(nodes, leaf);
    taken
}

/// The index of a delivery of a client, or of any of its. `None` exactly where there is none.
pub(crate) fn index_of(nodes: &[Node], client: u32, delivery: u32, any: bool) -> Option<usize>
    requires { IsTree nodes.now }
    ensures { IsFound any client delivery (helds nodes.now) result }
{
    if nodes.is_empty() {
        return None;
    }
    let at = end_of(nodes, client, delivery, any);
    if is_wanted(&nodes[at].held, client, delivery, any) {
        Some(at)
    } else {
        None
    }
}
