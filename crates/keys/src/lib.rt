// A key is two 64-bit words, high and low, and means the 128-bit number `number_of`: its bit 0 is the most significant.
// The functions here compare two keys and read a bit. None has a `requires`, and each answers by a definition on the numbers.
#![tactic(auto)]

ghost use Rattle.std.specs.Prelude.{◌≡◌, ltb, eqb};
ghost use Rattle.keys.specs.Common.{common, bit_of};
ghost use Rattle.keys.specs.Ways.{way_to, way_of};
ghost use Rattle.keys.specs.Number.{number_of};

// Keys are compared by their high words first, which is the order of their numbers.
#[derive(Clone, Copy, PartialEq, Eq, PartialOrd, Ord)]
pub struct Key {
    pub high: u64,
    pub low: u64,
}

// Where a key goes at a prefix: to the side of its next bit, or it has another prefix.
#[derive(Clone, Copy, PartialEq, Eq)]
pub enum Way {
    Left,
    Right,
    Parts,
}

// The number of leading equal bits of two keys: 0 to 128, and 128 for equal keys.
#[tactic(auto, using(crate::proofs::Words::words_common))]
pub fn leading_equal(a: Key, b: Key) -> u64
    ensures { result ≡ common (number_of a) (number_of b) }
{
    if a.high == b.high {
        64 + u64::from((a.low ^ b.low).leading_zeros())
    } else {
        u64::from((a.high ^ b.high).leading_zeros())
    }
}

// Whether the bit at place p is 1. Places end at 127: past them there is none, and the answer is false.
#[tactic(auto, using(crate::proofs::Words::words_bit), unfolding(crate::specs::Common::bit_of))]
pub fn bit(k: Key, p: u64) -> bool
    ensures { result ≡ bit_of (number_of k) p }
{
    if p < 64 {
        (k.high >> (63 - p)) % 2 == 1
    } else if p < 128 {
        (k.low >> (127 - p)) % 2 == 1
    } else {
        false
    }
}

// To the side of a bit.
fn side(one: bool) -> Way
    ensures { result ≡ way_to one }
{
    if one { Way::Right } else { Way::Left }
}

// Where key a goes at the first p bits of key b. Of p below 64 the high words tell; `place` is 63 - p, the bit's place
// from the right.
#[tactic(auto, using(crate::proofs::Words::words_way, crate::proofs::Places::place_right), unfolding(crate::specs::Ways::way_of))]
pub fn goes(a: Key, b: Key, p: u64) -> Way
    ensures { result ≡ way_of (number_of a) (number_of b) p }
{
    if p < 64 {
        let place = p ^ 63;
        if (a.high ^ b.high) >> place <= 1 {
            return side((a.high >> place) % 2 == 1);
        }
        return Way::Parts;
    }
    if leading_equal(a, b) < p {
        return Way::Parts;
    }
    side(bit(a, p))
}

// Whether a stands before b in the ascending order of keys.
#[tactic(auto, using(crate::proofs::Words::words_less, crate::proofs::Words::ordered_less))]
pub fn less(a: Key, b: Key) -> bool
    ensures { result ≡ ltb (number_of a) (number_of b) }
{
    a < b
}

// Whether a and b are one key.
#[tactic(auto, using(crate::proofs::Words::words_same))]
pub fn same(a: Key, b: Key) -> bool
    ensures { result ≡ eqb (number_of a) (number_of b) }
{
    a == b
}
