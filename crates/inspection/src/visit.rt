// A visited node: the one test of it, what both kinds share and then its own; its children; and the value record of a leaf.
ghost use Rattle.std.specs.Prelude.{◌≡◌};
ghost use Rattle.words.specs.Words.{words};
ghost use Rattle.inspection.specs.Tests.{node_ok, root_ok, kids_ok};
ghost use Rattle.inspection.specs.Visit.{of_kind, by_kind, visit_of, first_of, live_of};

use crate::tests::{inner_form, is_used, leaf_form, padding_ok};
use crate::{Image, Visited};
use records::read::{node_in, value_record};
use records::{Header, Node, NodeIndex, Value, ValueIndex};

// A node that has passed what is tested of both kinds, by its own.
fn of_kind(h: Header, x: Node) -> Visited
    ensures { result ≡ of_kind h x }
{
    if x.value.0 == 0 {
        if inner_form(x) {
            return Visited::Inner(x);
        }
        return Visited::Damaged;
    }
    if (x.value.0 < h.values.bump) & leaf_form(x) {
        return Visited::Leaf(x);
    }
    Visited::Damaged
}

// A node of a used index: what both kinds are tested for, then by its kind. `above` is the node that we came from (0 at the root), `low` the least
// prefix length that the node may have.
#[tactic(auto, unfolding(crate::specs::Visit::by_kind))]
fn by_kind(h: Header, clean: bool, above: NodeIndex, low: u64, x: Node) -> Visited
    ensures { result ≡ by_kind h clean above.0 low x }
{
    if clean {
        if x.parent.0 == above.0 {
            if low <= x.prefix {
                return of_kind(h, x);
            }
        }
    }
    Visited::Damaged
}

impl Image<'_> {
    // The node at an index, tested as a visited node.
    pub fn visit(&self, i: NodeIndex, above: NodeIndex, low: u64) -> Visited
        ensures { result ≡ visit_of self.now.h (words self.now.bytes.now) i.0 above.0 low }
    {
        if is_used(self.h, i) {
            return by_kind(
                self.h,
                padding_ok(self.bytes, i),
                above,
                low,
                node_in(self.bytes, i),
            );
        }
        Visited::Damaged
    }

    // The same without Parent and prefix order, for a node that has no known parent.
    pub fn visit_first(&self, i: NodeIndex) -> Visited
        ensures { result ≡ first_of self.now.h (words self.now.bytes.now) i.0 }
    {
        if is_used(self.h, i) {
            let x = node_in(self.bytes, i);
            return by_kind(self.h, padding_ok(self.bytes, i), x.parent, 0, x);
        }
        Visited::Damaged
    }

    // Whether the node at an index passes as a visited node.
    pub fn node_ok(&self, i: NodeIndex, above: NodeIndex, low: u64) -> bool
        ensures { result ≡ node_ok self.now.h (words self.now.bytes.now) i.0 above.0 low }
    {
        match self.visit(i, above, low) {
            Visited::Inner(_) => true,
            Visited::Leaf(_) => true,
            Visited::Damaged => false,
        }
    }

    // The root is a leaf exactly if n is 1.
    pub fn root_ok(&self) -> bool
        ensures { result ≡ root_ok self.now.h (words self.now.bytes.now) }
    {
        let root = self.h.root;
        if is_used(self.h, root) {
            let x = node_in(self.bytes, root);
            return (x.value.0 != 0) == (self.h.values.size == 1);
        }
        false
    }

    // The children of node `i`, whose record is `x`, tested as visited nodes; a leaf has none.
    pub fn kids_ok(&self, i: NodeIndex, x: Node) -> bool
        ensures { result ≡ kids_ok self.now.h (words self.now.bytes.now) i.0 x }
    {
        if x.value.0 == 0 {
            if x.prefix < 128 {
                let low = x.prefix + 1;
                return self.node_ok(x.left, i, low) & self.node_ok(x.right, i, low);
            }
            return false;
        }
        true
    }
}

// The value that record `j` of leaf `leaf` holds, if it passes: its four registers are 0.
pub fn live_value(img: &[u8], n: u32, leaf: NodeIndex, j: ValueIndex) -> Option<Value>
    ensures { result ≡ live_of n (words img.now) leaf.0 j.0 }
{
    let r = value_record(img, n, j);
    if (r.register0 == 0) & (r.register1 == 0) & (r.register2 == 0) & (r.register3 == 0) {
        return Some(r.value);
    }
    None
}
