// What C firmware calls: lookup and the full check, on an image in the firmware's own bytes.
//
// Nothing is copied, allocated or kept between calls. A key comes as its high and its low word; each answer is the number of docs/RULES.md, section R. `board_c` exports the two calls
// to C, whose side is include/logfringe.h.
#![tactic(auto)]

ghost use Rattle.std.specs.Prelude.{◌≡◌, ◌++◌, ◌+◌, ◌≤◌, length, drop};
ghost use Rattle.records.specs.Layout.{image_of};
ghost use Rattle.records.specs.Numbers.{answer_number};
ghost use Rattle.board.specs.Output.{put_wide, value_bytes, output_after, lookup_of};
ghost use Rattle.board.specs.Scratch.{board_check, scratch_after};

use full_check::check;
use keys::Key;
use lookup::get::get;
use records::{Refusal, Value, answer_number, number};

// The eight bytes of a 64-bit word, its low word first.
fn put_wide(out: &mut [u8], at: usize, v: u64)
    requires { at + 8 ≤ length out.old }
    ensures { out.new ≡ put_wide out.old at v }
{
    out[at..at + 8].copy_from_slice(&v.to_le_bytes());
}

// The first 16 bytes are a value's; what lies behind them is as it was.
fn put_value(out: &mut [u8], v: Value)
    requires { 16 ≤ length out.old }
    ensures { out.new ≡ value_bytes v ++ drop 16 out.old }
{
    put_wide(out, 0, v.first);
    put_wide(out, 8, v.second);
}

// A lookup's number, and its value or zeros in the first 16 bytes; after refusal 1 no byte is touched.
fn give(a: Result<Value, Refusal>, out: &mut [u8]) -> u32
    requires { 16 ≤ length out.old }
    ensures answer { result ≡ answer_number a }
    ensures output { out.new ≡ output_after a out.old }
{
    match a {
        Ok(v) => {
            put_value(out, v);
            0
        }
        Err(r) => {
            if r != Refusal::Shape {
                put_value(
                    out,
                    Value {
                        first: 0,
                        second: 0,
                    },
                );
            }
            number(r)
        }
    }
}

// The value of a key: 0, and 16 bytes of `out` are the value; or a refusal's number. An output of fewer than 16 bytes is refusal 1.
pub fn logfringe_get(img: &[u8], m: u32, n: u32, high: u64, low: u64, out: &mut [u8]) -> u32
    ensures answer { result ≡ answer_number (lookup_of m n (image_of img.now) (record { high = high; low = low }) out.old) }
    ensures output { out.new ≡ output_after (lookup_of m n (image_of img.now) (record { high = high; low = low }) out.old) out.old }
{
    if out.len() < 16 {
        return number(Refusal::Shape);
    }
    give(get(img, m, n, Key { high, low }), out)
}

// The full check: 0 exactly if the header and all records pass; or a refusal's number. A scratch of fewer than 4M bytes is refusal 1.
pub fn logfringe_check(img: &[u8], m: u32, n: u32, scratch: &mut [u8]) -> u32
    ensures answer { result ≡ answer_number (board_check m n (image_of img.now) scratch.old) }
    ensures scratch { scratch.new ≡ scratch_after m (board_check m n (image_of img.now) scratch.old) scratch.old }
{
    answer_number(check(img, m, n, scratch))
}
