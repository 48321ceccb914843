// What insert tests before it writes: the records that it will take, the children of the node that it splits, the value
// record that it replaces. Nothing here writes.
ghost use Rattle.std.specs.Prelude.{◌≡◌, ◌&&◌, ◌+◌, ◌*◌, ◌≤◌, length, leb};
ghost use Rattle.words.specs.Words.{words};
ghost use Rattle.node_allocator.specs.declared.Arena.TheVariants.{Nodes};
ghost use Rattle.node_allocator.specs.Steps.{never_used};
ghost use Rattle.records.specs.Layout.{image_of};
ghost use Rattle.inspection.specs.Opening.{open_of};
ghost use Rattle.descent.specs.declared.Stop.TheVariants.{Leaf, Parted, Empty};
ghost use Rattle.insert.specs.Plan.{taken_node, behind_head, taken_value, leaf_tests, split_tests, stop_plan, insert_plan};
ghost use Rattle.insert.specs.Ready.{Ready};
ghost use Rattle.insert.specs.Steps.{opened_plan};

use crate::Plan;
use descent::{Stop, find};
use inspection::Image;
use inspection::tests::{free_node, free_value};
use inspection::visit::live_value;
use keys::Key;
use node_allocator::{Arena, never_used};
use records::read::{node_in, value_record};
use records::{Header, Node, NodeIndex, Refusal, ValueIndex};

// ---- the records that it will take

// An image that has been opened, with its M and N.
#[derive(Clone, Copy)]
struct Opened<'a> {
    image: Image<'a>,
    m: u32,
    n: u32,
    ghost ready: { Ready m n image.h (length (words image.bytes.now)) },
}

impl Opened<'_> {
    // A node from the bump on: up to N it was never used.
    fn fresh_node(&self, i: NodeIndex) -> bool
        requires { 1 ≤ i.0 }
        ensures { result ≡ leb i.0 self.now.n && never_used (Nodes self.now.n) (words self.now.image.bytes.now) i.0 }
    {
        if i.0 <= self.n {
            return never_used(self.image.bytes, Arena::Nodes { nodes: self.n }, i.0);
        }
        false
    }

    // A node that is taken: below the bump it is free, and from there on it was never used.
    fn taken_node(&self, i: NodeIndex) -> bool
        requires { 1 ≤ i.0 }
        ensures { result ≡ taken_node self.now.n self.now.image.h (words self.now.image.bytes.now) i.0 }
    {
        let img = self.image.bytes;
        let h = self.image.h;
        if i.0 < h.nodes.bump {
            return free_node(img, h, i, node_in(img, i));
        }
        self.fresh_node(i)
    }

    // The node that is taken after the one at the head, if that may be taken.
    fn behind_head(&self) -> Option<NodeIndex>
        ensures { result ≡ behind_head self.now.n self.now.image.h (words self.now.image.bytes.now) }
    {
        let img = self.image.bytes;
        let h = self.image.h;
        let i = NodeIndex(h.nodes.head);
        if i.0 < h.nodes.bump {
            let x = node_in(img, i);
            if free_node(img, h, i, x) {
                return Some(x.left);
            }
        } else if self.fresh_node(i) {
            return Some(NodeIndex(i.0 + 1));
        }
        None
    }

    // The value record that is taken.
    fn taken_value(&self, j: ValueIndex) -> bool
        ensures { result ≡ taken_value self.now.m self.now.n self.now.image.h (words self.now.image.bytes.now) j.0 }
    {
        let img = self.image.bytes;
        let h = self.image.h;
        if j.0 < h.values.bump {
            return free_value(h, j, value_record(img, self.n, j));
        }
        if j.0 <= self.m {
            let a = Arena::Values {
                nodes: self.n,
                values: self.m,
            };
            return never_used(img, a, j.0);
        }
        false
    }

    // The records that a leaf takes: a node and a value record.
    fn leaf_tests(&self) -> bool
        ensures { result ≡ leaf_tests self.now.m self.now.n self.now.image.h (words self.now.image.bytes.now) }
    {
        let h = self.image.h;
        self.taken_node(NodeIndex(h.nodes.head)) & self.taken_value(ValueIndex(h.values.head))
    }

    // The records that a split takes: those of the leaf, and a second node.
    fn split_tests(&self) -> bool
        ensures { result ≡ split_tests self.now.m self.now.n self.now.image.h (words self.now.image.bytes.now) }
    {
        match self.behind_head() {
            Some(next) => self.taken_value(ValueIndex(self.image.h.values.head))
                & self.taken_node(next),
            None => false,
        }
    }
}

// ---- the plan

// At the equal leaf. It asks nothing of the image, and so is no method of `Opened`.
#[tactic(auto, using(inspection::specs::Visit::live_tested), unfolding(crate::specs::Plan::stop_plan))]
fn replace_plan(
    img: &[u8],
    m: u32,
    n: u32,
    h: Header,
    i: NodeIndex,
    x: Node,
) -> Result<Plan, Refusal>
    ensures { result ≡ stop_plan m n h (words img.now) (Leaf i x) }
{
    live_value(img, n, i, x.value).ok_or(Refusal::Damaged)?;
    Ok(Plan::Replace(i, x.value))
}

impl Opened<'_> {
    // At node `i`, whose record is `x`, where the key parts from the map.
    #[tactic(auto, unfolding(crate::specs::Plan::stop_plan))]
    fn split_plan(&self, i: NodeIndex, x: Node, shared: u64) -> Result<Plan, Refusal>
        ensures { result ≡ stop_plan self.now.m self.now.n self.now.image.h (words self.now.image.bytes.now) (Parted i x shared) }
    {
        if self.image.kids_ok(i, x) & self.split_tests() {
            return Ok(Plan::Split(self.image.h, i, x, shared));
        }
        Err(Refusal::Damaged)
    }

    // Into the empty map.
    #[tactic(auto, unfolding(crate::specs::Plan::stop_plan))]
    fn first_plan(&self) -> Result<Plan, Refusal>
        ensures { result ≡ stop_plan self.now.m self.now.n self.now.image.h (words self.now.image.bytes.now) Empty }
    {
        if self.leaf_tests() {
            return Ok(Plan::First(self.image.h));
        }
        Err(Refusal::Damaged)
    }

    // By where the key leads; a full map is refused before the key is looked for.
    fn plan(&self, key: Key) -> Result<Plan, Refusal>
        ensures { result ≡ insert_plan self.now.m self.now.n self.now.image.h (words self.now.image.bytes.now) key }
    {
        let h = self.image.h;
        if h.values.size == (self.m as u64) {
            return Err(Refusal::Full);
        }
        match find(&self.image, key) {
            Stop::Parted(i, x, shared) => self.split_plan(i, x, shared),
            Stop::Leaf(i, x) => replace_plan(self.image.bytes, self.m, self.n, h, i, x),
            Stop::Empty => self.first_plan(),
            Stop::Damaged => Err(Refusal::Damaged),
        }
    }
}

// What insert is going to do: shape and header first.
#[tactic(auto, using(inspection::specs::Room::opened_words, crate::specs::Ready::ready), unfolding(crate::specs::Steps::opened_plan))]
pub fn plan(img: &[u8], m: u32, n: u32, key: Key) -> Result<Plan, Refusal>
    ensures { result ≡ opened_plan m n (image_of img.now) key (open_of m n (image_of img.now)) }
{
    let image = Image::open(img, m, n)?;
    Opened { image, m, n }.plan(key)
}
