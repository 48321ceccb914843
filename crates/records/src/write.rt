// The one way to store a node's data, a value record and the root. An index that names no record stores nothing; the image is known to hold M value
// records behind N nodes. `arenas` has the same stores for a buffer that holds this of itself.
ghost use Rattle.std.specs.Prelude.{◌≡◌, ◌+◌, ◌*◌, ◌≤◌, length, set};
ghost use Rattle.words.specs.Words.{words};
ghost use Rattle.records.specs.Records.{with_parent};
ghost use Rattle.records.specs.Writes.{registers_set, key_set, node_set, set_node, value_set, live_record, set_value};

use crate::{Node, NodeIndex, Value, ValueIndex, ValueRecord};
use keys::Key;
use node_allocator::{Arena, is_inside, node_at, value_at};

// Four words from a place on: four lines, where a loop over an array of them would want an invariant.
#[tactic(auto, unfolding(crate::specs::Writes::registers_set))]
fn set_registers(img: &mut [u8], at: usize, a: u32, b: u32, c: u32, d: u32)
    requires { 4 * at + 16 ≤ length img.old }
    ensures { words img.new ≡ registers_set (words img.old) at a b c d }
{
    words::set_word_in(img, at, a);
    words::set_word_in(img, at + 1, b);
    words::set_word_in(img, at + 2, c);
    words::set_word_in(img, at + 3, d);
}

#[tactic(auto, unfolding(crate::specs::Writes::key_set))]
fn set_key(img: &mut [u8], at: usize, key: Key)
    requires { 4 * at + 16 ≤ length img.old }
    ensures { words img.new ≡ key_set (words img.old) at key }
{
    words::set_wide_in(img, at, key.low);
    words::set_wide_in(img, at + 2, key.high);
}

#[tactic(auto, unfolding(crate::specs::Writes::node_set))]
fn set_node_at(img: &mut [u8], at: usize, x: Node)
    requires { 4 * at + 40 ≤ length img.old }
    ensures { words img.new ≡ node_set (words img.old) at x }
{
    set_registers(img, at, x.left.0, x.right.0, x.parent.0, x.value.0);
    set_key(img, at + 4, x.key);
    words::set_wide_in(img, at + 8, x.prefix);
}

// A node with another Parent.
pub fn with_parent(parent: NodeIndex, x: Node) -> Node
    ensures { result ≡ with_parent parent.0 x }
{
    Node { parent, ..x }
}

// Node `i` holds this data; its padding stays.
#[tactic(auto, using(node_allocator::specs::Room::node_inside), unfolding(crate::specs::Writes::set_node))]
pub fn set_node(img: &mut [u8], n: u32, i: NodeIndex, x: Node)
    requires { 48 * n + 32 ≤ length img.old }
    ensures { words img.new ≡ set_node n (words img.old) i.0 x }
{
    if is_inside(Arena::Nodes { nodes: n }, i.0) {
        set_node_at(img, node_at(i.0), x);
    }
}

#[tactic(auto, unfolding(crate::specs::Writes::value_set))]
fn set_value_at(img: &mut [u8], at: usize, r: ValueRecord)
    requires { 4 * at + 32 ≤ length img.old }
    ensures { words img.new ≡ value_set (words img.old) at r }
{
    set_registers(img, at, r.register0, r.register1, r.register2, r.register3);
    words::set_wide_in(img, at + 4, r.value.first);
    words::set_wide_in(img, at + 6, r.value.second);
}

// The value record of leaf `leaf` that holds this value.
#[tactic(auto, unfolding(crate::specs::Writes::live_record))]
pub fn live_record(leaf: NodeIndex, value: Value) -> ValueRecord
    ensures { result ≡ live_record leaf.0 value }
{
    ValueRecord {
        register0: 0,
        register1: 0,
        register2: 0,
        register3: 0,
        value,
    }
}

// Value record `j` is this one.
#[tactic(auto, using(node_allocator::specs::Room::value_inside), unfolding(crate::specs::Writes::set_value))]
pub fn set_value(img: &mut [u8], m: u32, n: u32, j: ValueIndex, r: ValueRecord)
    requires { 48 * n + 32 * m + 48 ≤ length img.old }
    ensures { words img.new ≡ set_value m n (words img.old) j.0 r }
{
    let a = Arena::Values {
        nodes: n,
        values: m,
    };
    if is_inside(a, j.0) {
        set_value_at(img, value_at(n, j.0), r);
    }
}

pub fn set_root(img: &mut [u8], i: NodeIndex)
    ensures { words img.new ≡ set (words img.old) 2 i.0 }
{
    words::set_word(img, 2, i.0);
}
