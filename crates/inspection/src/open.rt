// Shape, then header: what every call but start tests first. And shape, then blank, for the calls that want blank memory.
ghost use Rattle.std.specs.Prelude.{◌≡◌, true, length, Err, IfErr, IfOk, Ok};
ghost use Rattle.words.specs.Words.{words};
ghost use Rattle.records.specs.Layout.{image_of};
ghost use Rattle.inspection.specs.Tests.{shape_ok};
ghost use Rattle.inspection.specs.Opening.{open_shaped, open_of, blank_of};

use crate::Image;
use crate::tests::{header_ok, padding_clean, shape_ok};
use records::read::header_in;
use records::{Header, Refusal};

// Whether a buffer is an image's: a whole number of words, and as many as M and N ask for.
pub fn is_image(img: &[u8], m: u32, n: u32) -> bool
    ensures { result ≡ shape_ok m n (length (image_of img.now)) }
{
    shape_ok(m, n, img.len())
}

// The header of an image of the right shape, or refusal 2.
pub fn open_shaped(img: &[u8], m: u32, n: u32) -> Result<Header, Refusal>
    requires { shape_ok m n (length (image_of img.now)) ≡ true }
    ensures { result ≡ open_shaped m n (image_of img.now) }
{
    let h = header_in(img, n);
    if padding_clean(img) {
        if header_ok(m, n, h) {
            return Ok(h);
        }
    }
    Err(Refusal::Damaged)
}

// The header of the image, or refusal 1 or 2.
pub fn open_image(img: &[u8], m: u32, n: u32) -> Result<Header, Refusal>
    ensures { result ≡ open_of m n (image_of img.now) }
{
    if is_image(img, m, n) {
        return open_shaped(img, m, n);
    }
    Err(Refusal::Shape)
}

impl<'a> Image<'a> {
    // The image that a buffer holds, or refusal 1 or 2.
    #[tactic(auto, using(crate::specs::Room::room, crate::specs::Room::opened_words), unfolding(crate::specs::Opening::open_of))]
    pub fn open(img: &'a [u8], m: u32, n: u32) -> Result<Image<'a>, Refusal>
        ensures ok { IfOk result (λ i. (open_of m n (image_of img.now) ≡ Ok i.h) × (i.bytes ≡ img.entry)) }
        ensures err { IfErr result (λ r. open_of m n (image_of img.now) ≡ Err r) }
    {
        let h = open_image(img, m, n)?;
        Ok(Image { bytes: img, h })
    }
}

// Whether the image has the right shape and every word of it is 0; else refusal 1 or 5.
pub fn blank_image(img: &[u8], m: u32, n: u32) -> Result<(), Refusal>
    ensures { result ≡ blank_of m n (image_of img.now) }
{
    if is_image(img, m, n) {
        if words::zeros(img, 0, words::count(img)) {
            return Ok(());
        }
        return Err(Refusal::NotBlank);
    }
    Err(Refusal::Shape)
}
