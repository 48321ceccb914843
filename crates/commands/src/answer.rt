// What a call's answer is written as. Each answer of these functions is under 80 bytes.
ghost use Rattle.std.specs.Prelude.{◌+◌, ◌≤◌, length};
ghost use Rattle.texts.specs.Put.{Written};
ghost use Rattle.commands.specs.Answers.{place_text, gone_text, val_text, one_text, close_text};

use keys::Key;
use records::{NodeIndex, Refusal, Value};
use texts::print::{put_bad, put_decimal, put_end, put_entry, put_refusal, put_text, put_value};

// `ok INDEX`
pub fn put_index(out: &mut [u8], at: usize, i: NodeIndex) -> usize
    requires { at + 80 ≤ length out.old }
    ensures room { result ≤ at + 80 }
    ensures text { Written out.old out.new at result (place_text (Ok i)) }
{
    let a = put_text(out, at, b"ok ");
    let b = put_decimal(out, a, i.0);
    put_text(out, b, b"\n")
}

// `gone V`. It differs from `put_val` in one word alone; each promises a text of its own, and a function under both would be longer than the line that it saves in each.
pub fn put_gone(out: &mut [u8], at: usize, v: Value) -> usize
    requires { at + 80 ≤ length out.old }
    ensures room { result ≤ at + 80 }
    ensures text { Written out.old out.new at result (gone_text (Ok v)) }
{
    let a = put_text(out, at, b"gone ");
    put_value(out, a, v)
}

// `val V`
pub fn put_val(out: &mut [u8], at: usize, v: Value) -> usize
    requires { at + 80 ≤ length out.old }
    ensures room { result ≤ at + 80 }
    ensures text { Written out.old out.new at result (val_text (Ok v)) }
{
    let a = put_text(out, at, b"val ");
    put_value(out, a, v)
}

// `K V` or `none`
pub fn answer_entry(out: &mut [u8], at: usize, a: Result<(Key, Value), Refusal>) -> usize
    requires { at + 80 ≤ length out.old }
    ensures room { result ≤ at + 80 }
    ensures text { Written out.old out.new at result (one_text a) }
{
    match a {
        Ok((key, v)) => put_entry(out, at, key, v),
        Err(r) => put_refusal(out, at, r),
    }
}

// A listing's last line.
pub fn answer_close(out: &mut [u8], at: usize, why: Refusal, count: u32) -> usize
    requires { at + 15 ≤ length out.old }
    ensures room { result ≤ at + 15 }
    ensures text { Written out.old out.new at result (close_text why count) }
{
    match why {
        Refusal::Absent => put_end(out, at, count),
        _ => put_bad(out, at),
    }
}
