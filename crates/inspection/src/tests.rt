// The tests of a record, each a function of the records that it is about. Most are chains of `&` and so without a branch; an `if` stands
// where a failed test spares those after it, or where what follows could wrap without it.
ghost use Rattle.std.specs.Prelude.{◌≡◌, ◌&&◌, ◌+◌, ◌*◌, ◌≤◌, length};
ghost use Rattle.words.specs.Words.{words};
ghost use Rattle.inspection.specs.Tests.{bytes_ok, arena_ok, counts_ok, header_ok, front_ok, spare_ok, used_node, padding_ok, leaf_form, inner_form, free_node, free_value};

use node_allocator::{Counts, link_ok};
use records::read::{front_in, padding_in, spare_in};
use records::{Header, Node, NodeIndex, ValueIndex, ValueRecord};

// The limits of M and N.
const MOST_VALUES: u32 = 4096;

const MOST_NODES: u32 = 8192;

// M and N lie within their limits, and a buffer of `len` bytes has as many words as they ask for.
pub fn shape_ok(m: u32, n: u32, len: usize) -> bool
    ensures { result ≡ bytes_ok m n len }
{
    (1 <= m)
        & (m <= MOST_VALUES)
        & (2 * (m as usize) <= (n as usize))
        & (n <= MOST_NODES)
        & (len == 4 * (12 + 12 * (n as usize) + 8 * (m as usize)))
}

// The header of an arena of `limit` records.
fn arena_ok(c: Counts, limit: u32) -> bool
    ensures { result ≡ arena_ok c limit }
{
    if ((c.bump as u64) <= (limit as u64) + 1) & (1 <= c.head) & (c.head <= c.bump) {
        let last = (c.bump as u64) - 1;
        return (c.size <= last) & ((c.head == c.bump) == (c.size == last));
    }
    false
}

// The sizes, the root, and the node head of an empty map.
fn counts_ok(m: u32, h: Header) -> bool
    ensures { result ≡ counts_ok m h }
{
    if h.values.size == 0 {
        return (h.nodes.size == 0) & (h.root.0 == 0) & (h.nodes.head == 1);
    }
    if h.values.size <= (m as u64) {
        return (h.nodes.size == 2 * h.values.size - 1) & (h.root.0 == 1);
    }
    false
}

// What the header of a map of capacity M over N nodes says.
pub fn header_ok(m: u32, n: u32, h: Header) -> bool
    ensures { result ≡ header_ok m n h }
{
    if counts_ok(m, h) {
        if arena_ok(h.nodes, n) {
            return arena_ok(h.values, m);
        }
    }
    false
}

// The header's padding.
pub fn padding_clean(img: &[u8]) -> bool
    requires { 12 ≤ length (words img.now) }
    ensures { result ≡ front_ok (words img.now) && spare_ok (words img.now) }
{
    (front_in(img) == 0) & (spare_in(img) == 0)
}

// An index of a node that was ever used.
pub fn is_used(h: Header, i: NodeIndex) -> bool
    ensures { result ≡ used_node h i.0 }
{
    (1 <= i.0) & (i.0 < h.nodes.bump)
}

// A node's padding.
pub fn padding_ok(img: &[u8], i: NodeIndex) -> bool
    requires { (1 ≤ i.0) × (12 * i.0 + 8 ≤ length (words img.now)) }
    ensures { result ≡ padding_ok (words img.now) i.0 }
{
    padding_in(img, i) == 0
}

// A leaf's form, as far as its node tells without a header.
pub fn leaf_form(x: Node) -> bool
    ensures { result ≡ leaf_form x }
{
    (x.left.0 == 0) & (x.right.0 == 0) & (x.prefix == 128)
}

// An inner node's: two children, and a prefix that has a next bit.
pub fn inner_form(x: Node) -> bool
    ensures { result ≡ inner_form x }
{
    if x.left.0 != 0 {
        if x.right.0 != 0 {
            if x.left.0 != x.right.0 {
                return x.prefix < 128;
            }
        }
    }
    false
}

// A free node below the bump, whose record is `x`.
pub fn free_node(img: &[u8], h: Header, i: NodeIndex, x: Node) -> bool
    requires { (1 ≤ i.0) × (12 * i.0 + 8 ≤ length (words img.now)) }
    ensures { result ≡ free_node h (words img.now) i.0 x }
{
    padding_ok(img, i)
        & ((x.value.0 == 0)
            & (x.right.0 == 0)
            & link_ok(h.nodes.bump, i.0, x.left.0)
            & (x.parent.0 < h.nodes.bump)
            & ((i.0 != 1) | (x.parent.0 == 0))
            & (x.prefix <= 128))
}

// A free value record below the bump.
pub fn free_value(h: Header, j: ValueIndex, r: ValueRecord) -> bool
    ensures { result ≡ free_value h j.0 r }
{
    link_ok(h.values.bump, j.0, r.register0)
        & (r.register1 == 0)
        & (r.register2 == 0)
        & (r.register3 == 0)
}
