// What insert writes. The records are taken in the Rust's order, and then each record that changes is stored as a whole.
ghost use Rattle.std.specs.Prelude.{◌≡◌};
ghost use Rattle.words.specs.Words.{words};
ghost use Rattle.node_allocator.specs.declared.Arena.TheVariants.{Nodes};
ghost use Rattle.node_allocator.specs.Steps.{add_counts};
ghost use Rattle.records.specs.Records.{leaf_node};
ghost use Rattle.records.specs.Rewritten.{Rewritten};
ghost use Rattle.insert.specs.Steps.{leaf_taken, first_image, fork_node, split_image};

use keys::{Key, bit};
use node_allocator::Counts;
use records::arenas::Arenas;
use records::write::{live_record, with_parent};
use records::{Header, Node, NodeIndex, Value, ValueIndex};

// The leaf's node is taken, and its value record, which holds the value. The answer is the nodes' header afterwards. It
// is inlined at both its places for speed: an insert took 1,085 instructions before, and then 1,004.
#[tactic(auto, unfolding(crate::specs::Steps::leaf_taken))]
#[inline(always)]
fn take_leaf(img: &mut Arenas, h: Header, v: Value) -> Counts
    ensures counts { result ≡ add_counts (Nodes img.old.n) (words img.old.bytes.now) h.nodes }
    ensures image { Rewritten img.old img.new (leaf_taken img.old.m img.old.n (words img.old.bytes.now) h v) }
{
    let leaf = NodeIndex(h.nodes.head);
    let after = img.add_node(h.nodes);
    img.add_value(h.values);
    img.set_value(ValueIndex(h.values.head), live_record(leaf, v));
    after
}

fn leaf_node(parent: NodeIndex, key: Key, value: ValueIndex) -> Node
    ensures { result ≡ leaf_node parent.0 key value.0 }
{
    Node {
        left: NodeIndex(0),
        right: NodeIndex(0),
        parent,
        value,
        key,
        prefix: 128,
    }
}

// Into the empty map: the new leaf is the root.
#[tactic(auto, unfolding(crate::specs::Steps::first_image))]
pub fn first(img: &mut Arenas, h: Header, key: Key, v: Value)
    ensures { Rewritten img.old img.new (first_image img.old.m img.old.n (words img.old.bytes.now) h key v) }
{
    let leaf = NodeIndex(h.nodes.head);
    let x = leaf_node(NodeIndex(0), key, ValueIndex(h.values.head));
    take_leaf(img, h, v);
    img.set_node(leaf, x);
    img.set_root(leaf);
}

// The inner node that takes the place of `x`: the new leaf hangs on the side of the key's bit at the shared length, and
// the copy of `x` on the other.
#[tactic(auto, unfolding(crate::specs::Steps::fork_node))]
fn fork_node(key: Key, shared: u64, leaf: NodeIndex, copy: NodeIndex, x: Node) -> Node
    ensures { result ≡ fork_node key shared leaf.0 copy.0 x }
{
    let (left, right) = if bit(key, shared) {
        (copy, leaf)
    } else {
        (leaf, copy)
    };
    Node {
        left,
        right,
        parent: x.parent,
        value: ValueIndex(0),
        key,
        prefix: shared,
    }
}

// At node `i`, whose record is `x` and where the key parts from the map: a leaf for it, a copy of the node, and the node
// above both. What the plan found is given one by one: theorems of `accepted_insert` speak of the plan in this form.
#[tactic(auto, unfolding(crate::specs::Steps::split_image, crate::specs::Steps::both_taken, crate::specs::Steps::copy_index, crate::specs::Steps::adopted, crate::specs::Steps::forked))]
pub fn split(img: &mut Arenas, h: Header, i: NodeIndex, x: Node, shared: u64, key: Key, v: Value)
    ensures { Rewritten img.old img.new (split_image img.old.m img.old.n (words img.old.bytes.now) h i.0 x shared key v) }
{
    let leaf = NodeIndex(h.nodes.head);
    let cell = ValueIndex(h.values.head);
    let after = take_leaf(img, h, v);
    let copy = NodeIndex(after.head);
    img.add_node(after);
    img.adopt(copy, x.left, x.right);
    img.set_node(copy, with_parent(i, x));
    img.set_node(leaf, leaf_node(i, key, cell));
    img.set_node(i, fork_node(key, shared, leaf, copy, x));
}
