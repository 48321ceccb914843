// Every call of the map as a C function, for the comparison with the original and for its benchmarks. Firmware uses crate `board`.
//
// A key comes as its high and its low word. An answer's number is returned, in the upper half of 64 bits where an index or a count stands in the lower half; a key and a value are written to `out` as words, the
// low word of each 64-bit word first.
#![tactic(auto)]

pub mod list; // list.rt: listings

use keys::Key;
use records::{NodeIndex, Refusal, Value, answer_number, number};

// What came with an answer, or its number in the upper half.
fn packed(a: Result<u64, Refusal>) -> u64 {
    match a {
        Ok(k) => k,
        Err(r) => (number(r) as u64) * 4294967296,
    }
}

fn place(a: Result<NodeIndex, Refusal>) -> u64 {
    packed(a.map(|i| i.0 as u64))
}

fn put_value(out: &mut [u8], at: usize, v: Value) {
    if at < 1024 {
        words::set_wide(out, at, v.first);
        words::set_wide(out, at + 2, v.second);
    }
}

fn got(a: Result<Value, Refusal>, out: &mut [u8]) -> u32 {
    if let Ok(v) = a {
        put_value(out, 0, v);
    }
    answer_number(a)
}

pub fn entry(a: Result<(Key, Value), Refusal>, out: &mut [u8]) -> u32 {
    if let Ok((k, v)) = a {
        words::set_wide(out, 0, k.high);
        words::set_wide(out, 2, k.low);
        put_value(out, 4, v);
    }
    answer_number(a)
}

#[unsafe(no_mangle)]
pub extern "C" fn bridge_start(img: &mut [u8], m: u32, n: u32) -> u32 {
    answer_number(lookup::start::start(img, m, n))
}

#[unsafe(no_mangle)]
pub extern "C" fn bridge_len(img: &[u8], m: u32, n: u32) -> u64 {
    packed(lookup::start::len(img, m, n))
}

#[unsafe(no_mangle)]
pub extern "C" fn bridge_capacity(img: &[u8], m: u32, n: u32) -> u64 {
    packed(lookup::start::capacity(img, m, n))
}

#[unsafe(no_mangle)]
pub extern "C" fn bridge_get(
    img: &[u8],
    m: u32,
    n: u32,
    high: u64,
    low: u64,
    out: &mut [u8],
) -> u32 {
    got(lookup::get::get(img, m, n, Key { high, low }), out)
}

#[unsafe(no_mangle)]
pub extern "C" fn bridge_set(
    img: &mut [u8],
    m: u32,
    n: u32,
    high: u64,
    low: u64,
    first: u64,
    second: u64,
) -> u32 {
    answer_number(lookup::get::set(img, m, n, Key { high, low }, Value { first, second }))
}

#[unsafe(no_mangle)]
pub extern "C" fn bridge_contains(img: &[u8], m: u32, n: u32, high: u64, low: u64) -> u32 {
    answer_number(lookup::get::contains(img, m, n, Key { high, low }))
}

#[unsafe(no_mangle)]
pub extern "C" fn bridge_addr(img: &[u8], m: u32, n: u32, high: u64, low: u64) -> u64 {
    place(lookup::get::get_addr(img, m, n, Key { high, low }))
}

#[unsafe(no_mangle)]
pub extern "C" fn bridge_min(img: &[u8], m: u32, n: u32, out: &mut [u8]) -> u32 {
    entry(lookup::ends::get_min(img, m, n), out)
}

#[unsafe(no_mangle)]
pub extern "C" fn bridge_max(img: &[u8], m: u32, n: u32, out: &mut [u8]) -> u32 {
    entry(lookup::ends::get_max(img, m, n), out)
}

#[unsafe(no_mangle)]
pub extern "C" fn bridge_insert(
    img: &mut [u8],
    m: u32,
    n: u32,
    high: u64,
    low: u64,
    first: u64,
    second: u64,
) -> u64 {
    place(insert::insert(img, m, n, Key { high, low }, Value { first, second }))
}

#[unsafe(no_mangle)]
pub extern "C" fn bridge_remove(
    img: &mut [u8],
    m: u32,
    n: u32,
    high: u64,
    low: u64,
    out: &mut [u8],
) -> u32 {
    got(remove::remove(img, m, n, Key { high, low }), out)
}

#[unsafe(no_mangle)]
pub extern "C" fn bridge_check(img: &[u8], m: u32, n: u32, scratch: &mut [u8]) -> u32 {
    answer_number(full_check::check(img, m, n, scratch))
}
