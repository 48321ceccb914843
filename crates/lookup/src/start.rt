// Start, and what the header alone tells.
ghost use Rattle.std.specs.Prelude.{◌≡◌};
ghost use Rattle.words.specs.Words.{words};
ghost use Rattle.records.specs.Layout.{image_of};
ghost use Rattle.records.specs.Numbers.{answer_number};
ghost use Rattle.inspection.specs.Outcome.{Leaves};
ghost use Rattle.lookup.specs.Start.{started, start_of, start_image, length_of, capacity_reply};

use inspection::open::{blank_image, open_image};
use node_allocator::{Arena, initialize};
use records::Refusal;

// Both arenas become empty.
#[tactic(auto, unfolding(crate::specs::Start::started))]
fn start_arenas(img: &mut [u8], m: u32, n: u32)
    ensures { words img.new ≡ started m n (words img.old) }
{
    initialize(img, Arena::Nodes { nodes: n });
    let values = Arena::Values {
        nodes: n,
        values: m,
    };
    initialize(img, values);
}

// Makes an empty map of blank memory.
pub fn start(img: &mut [u8], m: u32, n: u32) -> Result<(), Refusal>
    ensures answer { result ≡ start_of m n (image_of img.old) }
    ensures image { Leaves img.old img.new (answer_number (start_of m n (image_of img.old))) (start_image m n (image_of img.old)) }
{
    blank_image(img, m, n)?;
    start_arenas(img, m, n);
    Ok(())
}

// The number of entries.
#[tactic(auto, unfolding(crate::specs::Start::length_of, crate::specs::Start::opened_length))]
pub fn len(img: &[u8], m: u32, n: u32) -> Result<u64, Refusal>
    ensures { result ≡ length_of m n (image_of img.now) }
{
    let h = open_image(img, m, n)?;
    Ok(h.values.size)
}

// The most entries that the map can hold.
#[tactic(auto, unfolding(crate::specs::Start::capacity_reply, crate::specs::Start::opened_capacity))]
pub fn capacity(img: &[u8], m: u32, n: u32) -> Result<u64, Refusal>
    ensures { result ≡ capacity_reply m n (image_of img.now) }
{
    open_image(img, m, n)?;
    Ok(m as u64)
}
