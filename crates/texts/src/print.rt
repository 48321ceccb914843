// Bytes and numbers into the output buffer, from a place on; each function answers the place behind.
// By hand and not by `Display`: memory is fixed, and `Written` (specs/Put.antt) names each byte of a buffer that is lent.
// The buffer and the place are two parameters: `Written`, and the theorems `answered_once` and `finished_once` above it, speak of one buffer and several places.
ghost use Rattle.std.specs.Prelude.{◌≡◌, [], ◌∷◌, ◌++◌, ◌+◌, ◌<◌, ◌≤◌, length};
ghost use Rattle.texts.specs.Put.{Written};
ghost use Rattle.texts.specs.Digits.{digits, hex_of, width_of, decimal_of};
ghost use Rattle.texts.specs.Texts.{newline, pair_text, bad_text, end_text, value_text, entry_text, refusal_text};
ghost use Rattle.texts.specs.Digits.{glyph as digit_glyph};

use keys::Key;
use records::{Refusal, Value};

// A text.
pub fn put_text(out: &mut [u8], at: usize, text: &[u8]) -> usize
    requires { at + length text.now ≤ length out.old }
    ensures place { result ≡ at + length text.now }
    ensures text { Written out.old out.new at result text.now }
{
    let end = at + text.len();
    out[at..end].copy_from_slice(text);
    end
}

// The byte of a digit.
#[tactic(auto, using(std::proofs::lemmas::Bool::Decides::nat_tests), unfolding(crate::specs::Digits::glyph))]
fn glyph(d: u8) -> u8
    requires { d < 16 }
    ensures { result ≡ digit_glyph d }
{
    if d < 10 { b'0' + d } else { b'a' - 10 + d }
}

// The last digits of a number, so many, in a base from 2 to 16.
fn put_digits(out: &mut [u8], at: usize, n: u32, base: u32, many: usize) -> usize
    requires { (2 ≤ base) × (base ≤ 16) × (at + many ≤ length out.old) }
    ensures place { result ≡ at + many }
    ensures text { Written out.old out.new at result (digits base many n) }
{
    let mut rest = n;
    for k in (0..many).rev() {
        out[at + k] = glyph((rest % base) as u8);
        rest /= base;
    }
    at + many
}

// A 64-bit number as sixteen hex digits: those of its high half, then those of its low half.
fn put_hex(out: &mut [u8], at: usize, n: u64) -> usize
    requires { at + 16 ≤ length out.old }
    ensures place { result ≡ at + 16 }
    ensures text { Written out.old out.new at result (hex_of n) }
{
    let a = put_digits(out, at, (n / 4294967296) as u32, 16, 8);
    put_digits(out, a, (n % 4294967296) as u32, 16, 8)
}

// How many decimal digits a number takes.
fn width(n: u32) -> usize
    ensures { (result ≡ width_of n) × (result ≤ 10) }
{
    match n.checked_ilog10() {
        Some(k) => k as usize + 1,
        None => 1,
    }
}

// A number in decimal.
pub fn put_decimal(out: &mut [u8], at: usize, n: u32) -> usize
    requires { at + 10 ≤ length out.old }
    ensures room { result ≤ at + 10 }
    ensures text { Written out.old out.new at result (decimal_of n) }
{
    put_digits(out, at, n, 10, width(n))
}

// Two numbers, one behind the other: a key or a value.
fn put_pair(out: &mut [u8], at: usize, first: u64, second: u64) -> usize
    requires { at + 32 ≤ length out.old }
    ensures place { result ≡ at + 32 }
    ensures text { Written out.old out.new at result (pair_text first second) }
{
    let a = put_hex(out, at, first);
    put_hex(out, a, second)
}

// `bad`
pub fn put_bad(out: &mut [u8], at: usize) -> usize
    requires { at + 4 ≤ length out.old }
    ensures place { result ≡ at + 4 }
    ensures text { Written out.old out.new at result bad_text }
{
    put_text(out, at, b"bad\n")
}

// `end COUNT`
pub fn put_end(out: &mut [u8], at: usize, count: u32) -> usize
    requires { at + 15 ≤ length out.old }
    ensures room { result ≤ at + 15 }
    ensures text { Written out.old out.new at result (end_text count) }
{
    let a = put_text(out, at, b"end ");
    let b = put_decimal(out, a, count);
    put_text(out, b, b"\n")
}

// A value, and the line's end.
pub fn put_value(out: &mut [u8], at: usize, v: Value) -> usize
    requires { at + 33 ≤ length out.old }
    ensures place { result ≡ at + 33 }
    ensures text { Written out.old out.new at result (value_text v) }
{
    let a = put_pair(out, at, v.first, v.second);
    put_text(out, a, b"\n")
}

// A key and its value, as one line.
pub fn put_entry(out: &mut [u8], at: usize, key: Key, v: Value) -> usize
    requires { at + 66 ≤ length out.old }
    ensures place { result ≡ at + 66 }
    ensures text { Written out.old out.new at result (entry_text key v) }
{
    let a = put_pair(out, at, key.high, key.low);
    let b = put_text(out, a, b" ");
    put_value(out, b, v)
}

// What a refusal is answered.
pub fn put_refusal(out: &mut [u8], at: usize, why: Refusal) -> usize
    requires { at + 5 ≤ length out.old }
    ensures room { result ≤ at + 5 }
    ensures text { Written out.old out.new at result (refusal_text why) }
{
    match why {
        Refusal::Full => put_text(out, at, b"full\n"),
        Refusal::Absent => put_text(out, at, b"none\n"),
        _ => put_bad(out, at),
    }
}
