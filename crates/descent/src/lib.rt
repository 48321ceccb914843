// The descents from the root: by a key whose prefixes are compared, as lookup and insert go; and by a key's bits alone, as remove goes, and as the
// smallest and the largest entry are reached by the bits of the smallest and the largest key. Each visited node is tested before it is relied on, and
// each descent is a loop left by break with the node and the reason it stopped.
#![tactic(auto)]

ghost use Rattle.std.specs.Prelude.{◌≡◌};
ghost use Rattle.words.specs.Words.{words};
ghost use Rattle.records.specs.declared.Node.{Node};
ghost use Rattle.records.specs.declared.NodeIndex.{NodeIndex};
ghost use Rattle.descent.specs.Bits.{all_bits, bits_turns};
ghost use Rattle.descent.specs.Found.{stop_leaf};
ghost use Rattle.descent.specs.Descent.{Turn, lookup_turn, bits_turn, turn_at, from_root, find_of, leaf_of, end_of};
ghost use Rattle.descent.specs.Laws.{Turns, lookup_turns};

use inspection::{Image, Visited};
use keys::{Key, Way, bit, goes, leading_equal};
use records::{Node, NodeIndex, Refusal};
use std::ops::ControlFlow::{self, Break, Continue};

// Why a descent stopped, and where: at a leaf that fits; at a node where the key parts from the map, with the number of bits that they share; in an
// empty map; at damage, which stands among the cases as the theorems on a descent take it (`stop_in`, accepted_lookup).
#[derive(Clone, Copy)]
pub enum Stop {
    Leaf(NodeIndex, Node),
    Parted(NodeIndex, Node, u64),
    Empty,
    Damaged,
}

impl Stop {
    // The leaf and its record; or absent, where the key parts from the map or the map is empty; or damaged.
    #[tactic(auto, unfolding(crate::specs::Found::stop_leaf))]
    pub fn leaf(self) -> Result<(NodeIndex, Node), Refusal>
        ensures { result ≡ stop_leaf self }
    {
        match self {
            Stop::Leaf(i, x) => Ok((i, x)),
            Stop::Parted(_, _, _) => Err(Refusal::Absent),
            Stop::Empty => Err(Refusal::Absent),
            Stop::Damaged => Err(Refusal::Damaged),
        }
    }
}

// What a turn at one node comes to: the child to go to and the least prefix length that it may have, or the end.
type Turn = ControlFlow<Stop, (NodeIndex, u64)>;

// What a descent goes by: the turn that it takes at a node, down from an inner node alone and to the next longer prefix. What a lookup and a remove do
// differently is their turn; the loop is one, made anew for each.
trait Descend: Copy {
    ghost turn: { Self → NodeIndex → Node → Turn };

    // One node of the descent, reached from the node above.
    fn turn(self, image: &Image, i: NodeIndex, above: NodeIndex, low: u64) -> Turn
        ensures { result ≡ turn_at (turn self) image.now.h (words image.now.bytes.now) i above low };

    ghost turns: { (by : Self) → Turns (turn by) };
}

// From the root, by the root's rule; in an empty map nothing is visited.
#[tactic(auto, using(crate::proofs::Turns::steps), unfolding(crate::specs::Descent::from_root))]
fn from_root<D: Descend>(image: &Image, by: D) -> Stop
    ensures { result ≡ from_root (D.turn by) image.now.h (words image.now.bytes.now) }
{
    if image.h.values.size == 0 {
        return Stop::Empty;
    }
    if !image.root_ok() {
        return Stop::Damaged;
    }
    let mut at = image.h.root;
    let mut above = NodeIndex(0);
    let mut low: u64 = 0;
    loop {
        match by.turn(image, at, above, low) {
            Continue((next, least)) => {
                above = at;
                at = next;
                low = least;
            }
            Break(stop) => break stop,
        }
    }
}

// ---- by a key, prefixes compared

#[derive(Clone, Copy)]
struct ByKey(Key);

impl Descend for ByKey {
    ghost turn = { λ by. lookup_turn by.0 };

    ghost turns = { λ by. lookup_turns by.0 };

    // Damaged, parted, found, or down.
    #[tactic(auto, using(crate::proofs::Turns::lookup_turning))]
    fn turn(self, image: &Image, i: NodeIndex, above: NodeIndex, low: u64) -> Turn {
        let key = self.0;
        match image.visit(i, above, low) {
            Visited::Inner(x) => match goes(key, x.key, x.prefix) {
                Way::Left => Continue((x.left, x.prefix + 1)),
                Way::Right => Continue((x.right, x.prefix + 1)),
                Way::Parts => Break(Stop::Parted(i, x, leading_equal(key, x.key))),
            },
            Visited::Leaf(x) => {
                let shared = leading_equal(key, x.key);
                if shared < x.prefix {
                    return Break(Stop::Parted(i, x, shared));
                }
                Break(Stop::Leaf(i, x))
            }
            Visited::Damaged => Break(Stop::Damaged),
        }
    }
}

// Where a key leads.
pub fn find(image: &Image, key: Key) -> Stop
    ensures { result ≡ find_of image.now.h (words image.now.bytes.now) key }
{
    from_root(image, ByKey(key))
}

// ---- by a key's bits alone

#[derive(Clone, Copy)]
struct ByBits(Key);

impl Descend for ByBits {
    ghost turn = { λ by. bits_turn by.0 };

    ghost turns = { λ by. bits_turns by.0 };

    // Damaged, down, or the leaf.
    #[tactic(auto, using(crate::proofs::Turns::bits_turning), unfolding(crate::specs::Descent::child_of))]
    fn turn(self, image: &Image, i: NodeIndex, above: NodeIndex, low: u64) -> Turn {
        let key = self.0;
        match image.visit(i, above, low) {
            Visited::Inner(x) => Continue((x.child(bit(key, x.prefix)), x.prefix + 1)),
            Visited::Leaf(x) => Break(Stop::Leaf(i, x)),
            Visited::Damaged => Break(Stop::Damaged),
        }
    }
}

// The leaf that a key's bits lead to. Whether it is the key's is the caller's to ask.
pub fn reach(image: &Image, key: Key) -> Stop
    ensures { result ≡ leaf_of image.now.h (words image.now.bytes.now) key }
{
    from_root(image, ByBits(key))
}

// The key whose bits are all 0, or all 1.
fn all_bits(right: bool) -> Key
    ensures { result ≡ all_bits right }
{
    if right {
        return Key {
            high: u64::MAX,
            low: u64::MAX,
        };
    }
    Key { high: 0, low: 0 }
}

// The first leaf from the left, or from the right: the Rust's `find_min` and `find_max`. `right` picks a side, over which `end_of` ranges.
#[tactic(auto, using(crate::specs::Bits::end_bits))]
pub fn find_end(image: &Image, right: bool) -> Stop
    ensures { result ≡ end_of image.now.h (words image.now.bytes.now) right }
{
    reach(image, all_bits(right))
}
