// The two arenas of an image, lent to be written: the one way in which insert and remove store. That the buffer has room for both is a part of
// the type, so that no store asks for it. Nodes and value records are taken and freed under names of their own, since their indices are two
// types; both are one function of the arena's.
ghost use Rattle.std.specs.Prelude.{◌+◌, ◌*◌, ◌≤◌, length};

use crate::{Node, NodeIndex, ValueIndex, ValueRecord, write};
use node_allocator::{Arena, Counts, Register};

// A buffer that holds M value records behind N nodes.
#[derive(Drop)]
pub struct Arenas<'a> {
    pub bytes: &'a mut [u8],
    pub m: u32,
    pub n: u32,
    pub ghost room: { 48 * n + 32 * m + 48 ≤ length bytes.now },
}

impl Arenas<'_> {
    ghost use Rattle.std.specs.Prelude.{◌≡◌, set};
    ghost use Rattle.words.specs.Words.{words};
    ghost use Rattle.node_allocator.specs.declared.Arena.TheVariants.{Nodes, Values};
    ghost use Rattle.node_allocator.specs.declared.Register.TheVariants.{Parent};
    ghost use Rattle.node_allocator.specs.Steps.{set_register, add_counts, add_image, remove_counts, remove_image};
    ghost use Rattle.records.specs.Writes.{set_node, set_value};
    ghost use Rattle.records.specs.Rewritten.{Rewritten};

    fn nodes(&self) -> Arena
        ensures { result ≡ Nodes self.now.n }
    {
        Arena::Nodes { nodes: self.n }
    }

    fn values(&self) -> Arena
        ensures { result ≡ Values self.now.n self.now.m }
    {
        Arena::Values {
            nodes: self.n,
            values: self.m,
        }
    }

    // Node `i` holds this data; its padding stays.
    pub fn set_node(&mut self, i: NodeIndex, x: Node)
        ensures { Rewritten self.old self.new (set_node self.old.n (words self.old.bytes.now) i.0 x) }
    {
        write::set_node(self.bytes, self.n, i, x);
    }

    // Value record `j` is this one.
    pub fn set_value(&mut self, j: ValueIndex, r: ValueRecord)
        ensures { Rewritten self.old self.new (set_value self.old.m self.old.n (words self.old.bytes.now) j.0 r) }
    {
        write::set_value(self.bytes, self.m, self.n, j, r);
    }

    pub fn set_root(&mut self, i: NodeIndex)
        ensures { Rewritten self.old self.new (set (words self.old.bytes.now) 2 i.0) }
    {
        write::set_root(self.bytes, i);
    }

    // Nodes `l` and `r`, where they are nodes, hang below node `i`.
    pub fn adopt(&mut self, i: NodeIndex, l: NodeIndex, r: NodeIndex)
        ensures { Rewritten self.old self.new (set_register (Nodes self.old.n) (set_register (Nodes self.old.n) (words self.old.bytes.now) l.0 i.0 Parent) r.0 i.0 Parent) }
    {
        let nodes = self.nodes();
        node_allocator::set_register(self.bytes, nodes, l.0, i.0, Register::Parent);
        node_allocator::set_register(self.bytes, nodes, r.0, i.0, Register::Parent);
    }

    // The nodes' head is taken. The nodes' header was `c`, and the answer is what it is now.
    pub fn add_node(&mut self, c: Counts) -> Counts
        ensures counts { result ≡ add_counts (Nodes self.old.n) (words self.old.bytes.now) c }
        ensures image { Rewritten self.old self.new (add_image (Nodes self.old.n) (words self.old.bytes.now) c) }
    {
        let nodes = self.nodes();
        node_allocator::add_node(self.bytes, nodes, c)
    }

    // The values' head is taken. The values' header was `c`.
    pub fn add_value(&mut self, c: Counts)
        ensures { Rewritten self.old self.new (add_image (Values self.old.n self.old.m) (words self.old.bytes.now) c) }
    {
        let values = self.values();
        node_allocator::add_node(self.bytes, values, c);
    }

    // Node `i` is freed. The nodes' header was `c`, and the answer is what it is now.
    pub fn remove_node(&mut self, i: NodeIndex, c: Counts) -> Counts
        ensures counts { result ≡ remove_counts (Nodes self.old.n) c i.0 }
        ensures image { Rewritten self.old self.new (remove_image (Nodes self.old.n) (words self.old.bytes.now) i.0 c) }
    {
        let nodes = self.nodes();
        node_allocator::remove_node(self.bytes, nodes, i.0, c)
    }

    // Value record `j` is freed. The values' header was `c`.
    pub fn remove_value(&mut self, j: ValueIndex, c: Counts)
        ensures { Rewritten self.old self.new (remove_image (Values self.old.n self.old.m) (words self.old.bytes.now) j.0 c) }
    {
        let values = self.values();
        node_allocator::remove_node(self.bytes, values, j.0, c);
    }
}
