// The full check: whether the header and all records of an image pass.
//
// The image is only read. The caller lends a scratch of at least M words, in which the value records that leaves name are marked; afterwards
// its first M words are zero, and what lies behind them is as it was.
#![tactic(auto)]

mod chains; // chains.rt: the free chains, and what was never used
mod walk; // walk.rt: the tree

ghost use Rattle.std.specs.Prelude.{◌≡◌, length, true};
ghost use Rattle.words.specs.Words.{words};
ghost use Rattle.records.specs.Layout.{image_of};
ghost use Rattle.records.specs.Numbers.{answer_number};
ghost use Rattle.inspection.specs.Opening.{open_of};
ghost use Rattle.inspection.specs.Tests.{shape_ok};
ghost use Rattle.full_check.specs.Check.{unmarked, records_ok, opened_check, check_of, check_scratch};
ghost use Rattle.full_check.specs.Scratch.{ScratchLeft};

use chains::{node_chain, unused, value_chain};
use inspection::Image;
use inspection::open::{is_image, open_shaped};
use node_allocator::Arena;
use records::Refusal;
use walk::tree_ok;

// The tree, both chains, and what was never used.
fn records_ok(image: &Image, marks: &mut [u8], m: u32, n: u32) -> bool
    requires { words marks.old ≡ unmarked m }
    ensures { result ≡ records_ok m n image.now.h (words image.now.bytes.now) }
{
    let img = image.bytes;
    let h = image.h;
    tree_ok(image, marks, n)
        & node_chain(image)
        & value_chain(img, n, h)
        & unused(img, Arena::Nodes { nodes: n }, h.nodes.bump)
        & unused(
            img,
            Arena::Values {
                nodes: n,
                values: m,
            },
            h.values.bump,
        )
}

// The header, then the records, with no value record marked yet.
#[tactic(auto, using(crate::proofs::Rules::opening), unfolding(crate::specs::Check::opened_check))]
fn opened_check(img: &[u8], marks: &mut [u8], m: u32, n: u32) -> Result<(), Refusal>
    requires { (words marks.old ≡ unmarked m) × (shape_ok m n (length (image_of img.now)) ≡ true) }
    ensures { result ≡ opened_check m n (image_of img.now) (open_of m n (image_of img.now)) }
{
    let h = open_shaped(img, m, n)?;
    // Not by `Image::open`: the shape was tested before.
    let image = Image { bytes: img, h };
    if records_ok(&image, marks, m, n) {
        return Ok(());
    }
    Err(Refusal::Damaged)
}

// The same with a scratch of just M words, which is cleared before and after.
#[tactic(auto, using(words::specs::Words::words_length))]
fn cleared_check(img: &[u8], marks: &mut [u8], m: u32, n: u32) -> Result<(), Refusal>
    requires { (length (words marks.old) ≡ m) × (shape_ok m n (length (image_of img.now)) ≡ true) }
    ensures answer { result ≡ opened_check m n (image_of img.now) (open_of m n (image_of img.now)) }
    ensures scratch { words marks.new ≡ unmarked m }
{
    words::clear(marks);
    let answer = opened_check(img, marks, m, n);
    words::clear(marks);
    answer
}

// `Ok` exactly if the header and all records pass. Refusal 1: the image's shape is not M's and N's, or the scratch has fewer than M words, and
// then the scratch is not touched. Refusal 2: a test fails.
#[tactic(auto, using(crate::proofs::Rules::outcomes), unfolding(crate::specs::Check::check_shape))]
pub fn check(img: &[u8], m: u32, n: u32, scratch: &mut [u8]) -> Result<(), Refusal>
    ensures answer { result ≡ check_of m n (image_of img.now) (words scratch.old) }
    ensures scratch { ScratchLeft m scratch.old scratch.new (answer_number (check_of m n (image_of img.now) (words scratch.old))) (check_scratch m n (image_of img.now) (words scratch.old)) }
{
    if is_image(img, m, n) {
        let many = m as usize;
        if many <= words::count(scratch) {
            let end = 4 * many;
            return cleared_check(img, &mut scratch[..end], m, n);
        }
    }
    Err(Refusal::Shape)
}
