// The bench examples of the rules B that are run: the leading equal bits, the limits of M and N, images of other lengths, and the path of 129 nodes. The starred ones are proved: specs/Table.antt.
#![tactic(auto)]

ghost use Rattle.std.specs.Prelude.{◌≡◌, length};

use keys::{Key, leading_equal};
use records::{Value, answer_number};
use std::io;

fn key(high: u64, low: u64) -> Key {
    Key { high, low }
}

// 2^k, for k below 128.
fn power(k: u32) -> Key {
    if k < 64 {
        return key(0, 1 << k);
    }
    if k < 128 {
        return key(1 << (k - 64), 0);
    }
    key(0, 0)
}

fn say(rt: &impl Print, text: &[u8], count: u64) -> io::Result<()> {
    rt.write_all(text)?;
    println!(rt; "{count}")
}

// What start answers on so many blank words of the memory. 9 where it has fewer, which no example asks for; it is a number like the answers, as `say` prints it.
fn started(img: &mut [u8], count: usize, m: u32, n: u32) -> u64 {
    words::clear(img);
    if count <= 131092 {
        if 4 * count <= img.len() {
            return answer_number(lookup::start::start(&mut img[..4 * count], m, n)) as u64;
        }
    }
    9
}

// Parent of node i, which is word 2 of its twelve; 0 where there is no such node. It is no Option: the word itself is 0 where a node has no parent.
fn parent(img: &[u8], i: u32) -> u32 {
    if 0 < i {
        if i <= 512 {
            return words::word(img, 12 * (i as usize) - 2);
        }
    }
    0
}

// How many nodes lie from node i up to the root.
fn path(img: &[u8], i: u32) -> u64 {
    let mut at = i;
    for count in 0..1000 {
        if at == 0 {
            return count;
        }
        at = parent(img, at);
    }
    1000
}

// B, which is 0, and all 128 powers of two go into a map of 256 values and 512 nodes; the path to B.
fn deepest(img: &mut [u8]) -> u64 {
    let v = Value {
        first: 0,
        second: 0,
    };
    let _ = insert::insert(img, 256, 512, key(0, 0), v);
    for k in 0..128 {
        let _ = insert::insert(img, 256, 512, power(k), v);
    }
    match lookup::get::get_addr(img, 256, 512, key(0, 0)) {
        Ok(i) => path(img, i.0),
        Err(_) => 0,
    }
}

// The same on the memory's first 8,204 words, where a map of that size was started.
fn deepest_path(img: &mut [u8]) -> u64 {
    if 32816 <= img.len() {
        return deepest(&mut img[..32816]);
    }
    0
}

// The memory, blank.
fn blank() -> [u8; 524368]
    ensures { 524368 ≡ length result }
{
    [0; 524368]
}

fn main(rt: HostRuntime) -> io::Result<()> {
    let mut space = blank();
    let img: &mut [u8] = &mut space;
    say(&rt, b"A, B: ", leading_equal(power(127), key(0, 0)))?;
    say(
        &rt,
        b"high word 1 against 0: ",
        leading_equal(key(1, 0), key(0, 0)),
    )?;
    say(
        &rt,
        b"low word 2^63 against 0: ",
        leading_equal(power(63), key(0, 0)),
    )?;
    say(&rt, b"B, C: ", leading_equal(key(0, 0), key(0, 1)))?;
    say(&rt, b"139 words: ", started(img, 139, 4, 8))?;
    say(&rt, b"140 words: ", started(img, 140, 4, 8))?;
    say(&rt, b"141 words: ", started(img, 141, 4, 8))?;
    say(&rt, b"M 0: ", started(img, 108, 0, 8))?;
    say(&rt, b"M 4097: ", started(img, 131092, 4097, 8192))?;
    say(&rt, b"M 4 with N 7: ", started(img, 128, 4, 7))?;
    say(
        &rt,
        b"M 4096 with N 8192: ",
        started(img, 131084, 4096, 8192),
    )?;
    say(&rt, b"M 256 with N 512: ", started(img, 8204, 256, 512))?;
    say(&rt, b"B's path: ", deepest_path(img))
}
