// The free chains, from each arena's head to its bump, and the records that were never used.
ghost use Rattle.std.specs.Prelude.{◌≡◌, ◌+◌, ◌-◌, ◌*◌, ◌≤◌, ◌<◌};
ghost use Rattle.words.specs.Words.{words};
ghost use Rattle.words.specs.Zeros.{zeros_at};
ghost use Rattle.node_allocator.specs.Layout.{record_at, capacity_of, width_of};
ghost use Rattle.full_check.specs.Chains.{free_count, Chained, node_chain, value_chain};

use inspection::Image;
use inspection::tests::{free_node, free_value};
use node_allocator::{Arena, Counts, capacity, record_at, width};
use records::read::{node_in, value_record};
use records::{Header, NodeIndex, ValueIndex};

// How many records below the bump are free.
fn free_count(c: Counts) -> u64
    ensures { result ≡ free_count c }
{
    (c.bump as u64).saturating_sub(1).saturating_sub(c.size)
}

// The chain of free records ends at the bump after as many as are free. `link` gives the record that one names as the next, if that one passes the
// test of a free one.
fn chain<F: Fn(u32) -> Option<u32>>(c: Counts, link: F) -> bool
    requires { (i : _) → 1 ≤ i → i < c.bump → F.pre link i }
    ensures { Chained (F.post link) c result }
{
    let mut i = c.head;
    for _ in 0..free_count(c) {
        if !((1 <= i) & (i < c.bump)) {
            return false;
        }
        match link(i) {
            Some(next) => i = next,
            None => return false,
        }
    }
    i == c.bump
}

// The chain of free nodes.
pub fn node_chain(image: &Image) -> bool
    ensures { result ≡ node_chain image.now.h (words image.now.bytes.now) }
{
    chain(image.h.nodes, |i| {
        let x = node_in(image.bytes, NodeIndex(i));
        free_node(image.bytes, image.h, NodeIndex(i), x).then_some(x.left.0)
    })
}

// The chain of free value records. It takes the bytes and no `Image`: it asks nothing of them.
pub fn value_chain(img: &[u8], n: u32, h: Header) -> bool
    ensures { result ≡ value_chain n h (words img.now) }
{
    chain(h.values, |j| {
        let x = value_record(img, n, ValueIndex(j));
        free_value(h, ValueIndex(j), x).then_some(x.register0)
    })
}

// Every record of an arena from the bump on is zeros.
#[tactic(auto, using(node_allocator::specs::Layout::width_most))]
pub fn unused(img: &[u8], a: Arena, bump: u32) -> bool
    ensures { result ≡ zeros_at (words img.now) (record_at a bump) (width_of a * (capacity_of a + 1 - bump)) }
{
    let many = (capacity(a) as u64 + 1).saturating_sub(bump as u64);
    words::zeros(img, record_at(a, bump), width(a) * (many as usize))
}
