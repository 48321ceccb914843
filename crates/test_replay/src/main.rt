// Replays a recorded sample of the original's answers, from standard input, and compares each answer and a checksum of the image's words after each call. It writes how many calls agree and how many differ.
// A read or a write that fails ends it with that error.
//
// A record is 24 words, lowest byte first: the call's letter as a number, M, N, the answer's number, the key (high, low), the value (two), the answer's results (four 64-bit numbers), the checksum, and two words over.
// `oracle/compare` has the recorder.
#![tactic(auto)]

use keys::Key;
use records::{NodeIndex, Refusal, Value, number};
use std::io::{self, ErrorKind, Read};

// What a call answers: its number, and the four numbers that come with it.
#[derive(Clone, Copy, PartialEq, Eq)]
struct Outcome {
    number: u32,
    results: [u64; 4],
}

impl From<Result<[u64; 4], Refusal>> for Outcome {
    fn from(answer: Result<[u64; 4], Refusal>) -> Outcome {
        match answer {
            Ok(results) => Outcome { number: 0, results },
            Err(r) => Outcome {
                number: number(r),
                results: [0; 4],
            },
        }
    }
}

fn done(a: Result<(), Refusal>) -> Outcome {
    Outcome::from(a.map(|_| [0; 4]))
}

fn place(a: Result<NodeIndex, Refusal>) -> Outcome {
    Outcome::from(a.map(|i| [i.0 as u64, 0, 0, 0]))
}

fn count(a: Result<u64, Refusal>) -> Outcome {
    Outcome::from(a.map(|k| [k, 0, 0, 0]))
}

fn got(a: Result<Value, Refusal>) -> Outcome {
    Outcome::from(a.map(|v| [v.first, v.second, 0, 0]))
}

fn entry(a: Result<(Key, Value), Refusal>) -> Outcome {
    Outcome::from(a.map(|(k, v)| [k.high, k.low, v.first, v.second]))
}

// A call that reads. Its letter is data of the record, told apart here and in `make` alone.
fn ask(letter: u8, img: &[u8], m: u32, n: u32, key: Key) -> Outcome {
    match letter {
        b'g' => got(lookup::get::get(img, m, n, key)),
        b'c' => done(lookup::get::contains(img, m, n, key)),
        b'd' => place(lookup::get::get_addr(img, m, n, key)),
        b'l' => count(lookup::start::len(img, m, n)),
        b'p' => count(lookup::start::capacity(img, m, n)),
        b'n' => entry(lookup::ends::get_min(img, m, n)),
        b'x' => entry(lookup::ends::get_max(img, m, n)),
        // A letter that is no call's. A number, as a record's answer is compared with it too; no call answers 99, and no record has it.
        _ => Outcome {
            number: 99,
            results: [0; 4],
        },
    }
}

// A call of any kind.
fn make(letter: u8, img: &mut [u8], m: u32, n: u32, key: Key, v: Value) -> Outcome {
    match letter {
        b's' => {
            words::clear(img);
            done(lookup::start::start(img, m, n))
        }
        b'i' => place(insert::insert(img, m, n, key, v)),
        b'r' => got(remove::remove(img, m, n, key)),
        b'w' => done(lookup::get::set(img, m, n, key, v)),
        _ => ask(letter, img, m, n, key),
    }
}

// A checksum of the words in which their order counts.
fn checksum(img: &[u8]) -> u64 {
    let mut sum: u64 = 0;
    let mut sums: u64 = 0;
    for k in 0..words::count(img) {
        sum = sum.wrapping_add(words::word(img, k) as u64);
        sums = sums.wrapping_add(sum);
    }
    sums.wrapping_add(sum)
}

// What a record says was answered.
fn recorded(rec: &[u8]) -> Outcome {
    Outcome {
        number: words::word(rec, 3),
        results: [
            words::wide(rec, 12),
            words::wide(rec, 14),
            words::wide(rec, 16),
            words::wide(rec, 18),
        ],
    }
}

// Whether the port agrees with a record.
fn agrees(rec: &[u8], img: &mut [u8]) -> bool {
    let letter = (words::word(rec, 0) % 256) as u8;
    let m = words::word(rec, 1);
    let n = words::word(rec, 2);
    let key = Key {
        high: words::wide(rec, 4),
        low: words::wide(rec, 6),
    };
    let v = Value {
        first: words::wide(rec, 8),
        second: words::wide(rec, 10),
    };
    (make(letter, img, m, n, key, v) == recorded(rec)) & (checksum(img) == words::wide(rec, 20))
}

// How many bytes of an image of 308 words a map of capacity M over N nodes takes; none where it is larger.
// It is no Option: 0 is an empty image, and a call on a larger map is replayed on that and compared like any other.
fn size(m: u32, n: u32) -> usize {
    if (m <= 7) & (n <= 20) {
        return 48 + 48 * (n as usize) + 32 * (m as usize);
    }
    0
}

fn say(rt: &impl Print, agreed: u64, differed: u64) -> io::Result<()> {
    println!(rt; "{agreed} calls agree, {differed} differ")
}

// Whether a whole record was read: not where the input ends before.
fn read_record(input: &mut impl Read, rec: &mut [u8]) -> io::Result<bool> {
    match input.read_exact(rec) {
        Ok(()) => Ok(true),
        Err(e) => {
            if e.kind() == ErrorKind::UnexpectedEof {
                Ok(false)
            } else {
                Err(e)
            }
        }
    }
}

fn main(rt: HostRuntime) -> io::Result<()> {
    let mut input = rt.stdin();
    let mut space = [0u8; 1232];
    let img: &mut [u8] = &mut space;
    let mut read = [0u8; 96];
    let rec: &mut [u8] = &mut read;
    let mut agreed: u64 = 0;
    let mut differed: u64 = 0;
    for _ in 0..100000 {
        if !read_record(&mut input, rec)? {
            break;
        }
        let end = size(words::word(rec, 1), words::word(rec, 2));
        if end <= img.len() {
            if agrees(rec, &mut img[..end]) {
                agreed = agreed.wrapping_add(1);
            } else {
                differed = differed.wrapping_add(1);
            }
        }
    }
    say(&rt, agreed, differed)
}
