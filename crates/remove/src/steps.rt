// What remove writes, in the Rust's order. Nothing is tested here: the plan has passed the tests. Each record that
// changes is stored as a whole.
ghost use Rattle.std.specs.Prelude.{◌≡◌};
ghost use Rattle.words.specs.Words.{words};
ghost use Rattle.node_allocator.specs.declared.Arena.TheVariants.{Nodes};
ghost use Rattle.node_allocator.specs.Steps.{remove_counts};
ghost use Rattle.records.specs.Records.{bare_node};
ghost use Rattle.records.specs.Rewritten.{Rewritten};
ghost use Rattle.remove.specs.Steps.{leaf_freed, lone_image, cut_image};

use node_allocator::Counts;
use records::arenas::Arenas;
use records::write::with_parent;
use records::{Header, Node, NodeIndex, ValueIndex};

// A node that links to nothing but its Parent.
fn bare(parent: NodeIndex, x: Node) -> Node
    ensures { result ≡ bare_node parent.0 x }
{
    Node {
        left: NodeIndex(0),
        right: NodeIndex(0),
        parent,
        value: ValueIndex(0),
        ..x
    }
}

// Frees the value record of leaf `i`, whose record is `x`, then its node, and answers the nodes' header afterwards. It is
// inlined for speed: a remove took 1,011 instructions before, and then 990.
#[tactic(auto, unfolding(crate::specs::Steps::leaf_freed))]
#[inline]
fn free_leaf(img: &mut Arenas, h: Header, i: NodeIndex, x: Node) -> Counts
    ensures counts { result ≡ remove_counts (Nodes img.old.n) h.nodes i.0 }
    ensures image { Rewritten img.old img.new (leaf_freed img.old.m img.old.n (words img.old.bytes.now) h i.0 x) }
{
    img.remove_value(x.value, h.values);
    img.set_node(i, bare(NodeIndex(0), x));
    img.remove_node(i, h.nodes)
}

// A leaf that is the root: the root is none, and the leaf is freed.
#[tactic(auto, unfolding(crate::specs::Steps::lone_image))]
pub fn remove_lone(img: &mut Arenas, h: Header, i: NodeIndex, x: Node)
    ensures { Rewritten img.old img.new (lone_image img.old.m img.old.n (words img.old.bytes.now) h i.0 x) }
{
    img.set_root(NodeIndex(0));
    free_leaf(img, h, i, x);
}

// A leaf `i` below a node, whose record is `y`: the leaf is freed, and its sibling `s`, whose record is `z`, moves into
// that node, whose Parent stays. The sibling's old node is freed, and its Parent word stays too. What the plan found is
// given one by one: theorems of `accepted_remove` speak of the plan in this form.
#[tactic(auto, unfolding(crate::specs::Steps::cut_image, crate::specs::Steps::moved, crate::specs::Steps::place_freed))]
pub fn remove_cut(
    img: &mut Arenas,
    h: Header,
    i: NodeIndex,
    x: Node,
    y: Node,
    s: NodeIndex,
    z: Node,
)
    ensures { Rewritten img.old img.new (cut_image img.old.m img.old.n (words img.old.bytes.now) h i.0 x y s.0 z) }
{
    let c = free_leaf(img, h, i, x);
    img.set_node(x.parent, with_parent(y.parent, z));
    img.adopt(x.parent, z.left, z.right);
    img.set_node(s, bare(z.parent, z));
    img.remove_node(s, c);
}
