// The walk over the tree: from the root to the left child, then to the right one, each node tested before it is relied on. The value
// records that leaves name are marked, so that one named twice is found.
ghost use Rattle.std.specs.Prelude.{◌≡◌, ◌&&◌, ◌≤◌, ltb};
ghost use Rattle.words.specs.Words.{words};
ghost use Rattle.full_check.specs.Walk.{side_ok, leaf_walk};
ghost use Rattle.full_check.specs.Walked.{walked, WalksTo};
ghost use Rattle.full_check.specs.Check.{tree_ok};

use inspection::visit::live_value;
use inspection::{Image, Visited};
use keys::{Key, bit, leading_equal};
use records::{Node, NodeIndex};

// What a walk goes over: an image, and its N.
#[derive(Clone, Copy)]
struct Ground<'a> {
    image: Image<'a>,
    n: u32,
}

// Where a node is reached from: the node above, the least prefix length below that one, its key, and the side.
#[derive(Clone, Copy)]
struct Above {
    at: NodeIndex,
    low: u64,
    key: Key,
    right: bool,
    ghost deep: { low ≤ 128 },
}

// A child's key shares its parent's prefix and has the side's bit behind it. `low` is one more than that prefix, and 0 at the root.
#[tactic(auto, unfolding(crate::specs::Walk::side_ok))]
fn side_ok(low: u64, key: Key, right: bool, x: Node) -> bool
    ensures { result ≡ side_ok low key right x }
{
    if low == 0 {
        return true;
    }
    let prefix = low - 1;
    (prefix <= leading_equal(key, x.key)) & (bit(x.key, prefix) == right)
}

impl Above {
    // A child on its side, with so many nodes left to be reached.
    fn in_order(&self, rest: u64, x: Node) -> bool
        ensures { result ≡ side_ok self.now.low self.now.key self.now.right x && ltb 0 rest }
    {
        side_ok(self.low, self.key, self.right, x) & (0 < rest)
    }
}

// Leaf `i`: its value record is tested and marked. A walk answers how many nodes are left to be reached, if every node passed.
#[tactic(auto, using(inspection::specs::Visit::live_tested), unfolding(crate::specs::Walk::leaf_walk))]
fn leaf_walk(img: &[u8], marks: &mut [u8], n: u32, rest: u64, i: NodeIndex, x: Node) -> Option<u64>
    requires { 1 ≤ x.value.0 }
    ensures { walked result (words marks.new) ≡ leaf_walk n (words img.now) rest (words marks.old) i.0 x }
{
    let j = x.value;
    let at = (j.0 - 1) as usize;
    if live_value(img, n, i, j).is_some() & (words::word(marks, at) == 0) {
        words::set_word(marks, at, 1);
        return Some(rest);
    }
    None
}

// Node `i`, reached from the node above, and all nodes below it.
#[tactic(auto, using(crate::proofs::Rules::ends))]
fn walk(ground: &Ground, marks: &mut [u8], rest: u64, i: NodeIndex, above: &Above) -> Option<u64>
    ensures { WalksTo ground.now.n ground.now.image.h (words ground.now.image.bytes.now) rest (words marks.old) i.0 above.now.at.0 above.now.low above.now.key above.now.right (walked result (words marks.new)) }
{
    match ground.image.visit(i, above.at, above.low) {
        Visited::Inner(x) => {
            if above.in_order(rest, x) {
                let mut below = Above {
                    at: i,
                    low: x.prefix + 1,
                    key: x.key,
                    right: false,
                };
                let more = walk(ground, marks, rest - 1, x.left, &below)?;
                below.right = true;
                return walk(ground, marks, more, x.right, &below);
            }
            None
        }
        Visited::Leaf(x) => {
            if above.in_order(rest, x) {
                return leaf_walk(ground.image.bytes, marks, ground.n, rest - 1, i, x);
            }
            None
        }
        Visited::Damaged => None,
    }
}

// The root keeps its rule, and the tree reaches as many nodes as node size says; an empty map has none.
#[tactic(auto, unfolding(crate::specs::Check::tree_ok, crate::specs::Check::root_walk))]
pub fn tree_ok(image: &Image, marks: &mut [u8], n: u32) -> bool
    ensures { result ≡ tree_ok n image.now.h (words image.now.bytes.now) (words marks.old) }
{
    if image.h.values.size == 0 {
        return true;
    }
    if !image.root_ok() {
        return false;
    }
    let root = image.h.root;
    let none = Above {
        at: NodeIndex(0),
        low: 0,
        key: Key { high: 0, low: 0 },
        right: false,
    };
    let ground = Ground { image: *image, n };
    let left = walk(&ground, marks, image.h.nodes.size, root, &none);
    left == Some(0)
}
