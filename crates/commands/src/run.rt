// A command on the map: the call, and its answer. M is 256 and N 512.
ghost use Rattle.std.specs.Prelude.{◌+◌, ◌≤◌, length};
ghost use Rattle.records.specs.Layout.{image_of};
ghost use Rattle.records.specs.Numbers.{answer_number};
ghost use Rattle.inspection.specs.Outcome.{Leaves};
ghost use Rattle.lookup.specs.Get.{get_of, write_of, write_image};
ghost use Rattle.insert.specs.Steps.{insert_of, insert_image};
ghost use Rattle.remove.specs.Steps.{remove_of, removed_image};
ghost use Rattle.texts.specs.Put.{Written};
ghost use Rattle.texts.specs.Lines.{command_of};
ghost use Rattle.commands.specs.Answers.{place_text, gone_text, val_text, done_text, answer_of, image_after, kept_by};

use crate::all::put_all;
use crate::answer::{answer_entry, put_gone, put_index, put_val};
use keys::Key;
use lookup::ends::{get_max, get_min};
use lookup::get::{get, set};
use records::Value;
use texts::Command;
use texts::parse::parse;
use texts::print::{put_bad, put_refusal, put_text};

// The four `*_line` and `answer_entry` match a call's answer themselves: tried, one function over the answer and how to put it; its clauses on every reference to the output are longer than the matches.
fn insert_line(img: &mut [u8], out: &mut [u8], at: usize, key: Key, v: Value) -> usize
    requires { at + 80 ≤ length out.old }
    ensures room { result ≤ at + 80 }
    ensures text { Written out.old out.new at result (place_text (insert_of 256 512 (image_of img.old) key)) }
    ensures image { Leaves img.old img.new (answer_number (insert_of 256 512 (image_of img.old) key)) (insert_image 256 512 (image_of img.old) key v) }
{
    match insert::insert(img, 256, 512, key, v) {
        Ok(i) => put_index(out, at, i),
        Err(r) => put_refusal(out, at, r),
    }
}

fn remove_line(img: &mut [u8], out: &mut [u8], at: usize, key: Key) -> usize
    requires { at + 80 ≤ length out.old }
    ensures room { result ≤ at + 80 }
    ensures text { Written out.old out.new at result (gone_text (remove_of 256 512 (image_of img.old) key)) }
    ensures image { Leaves img.old img.new (answer_number (remove_of 256 512 (image_of img.old) key)) (removed_image 256 512 (image_of img.old) key) }
{
    match remove::remove(img, 256, 512, key) {
        Ok(v) => put_gone(out, at, v),
        Err(r) => put_refusal(out, at, r),
    }
}

fn write_line(img: &mut [u8], out: &mut [u8], at: usize, key: Key, v: Value) -> usize
    requires { at + 80 ≤ length out.old }
    ensures room { result ≤ at + 80 }
    ensures text { Written out.old out.new at result (done_text (write_of 256 512 (image_of img.old) key)) }
    ensures image { Leaves img.old img.new (answer_number (write_of 256 512 (image_of img.old) key)) (write_image 256 512 (image_of img.old) key v) }
{
    match set(img, 256, 512, key, v) {
        Ok(()) => put_text(out, at, b"set\n"),
        Err(r) => put_refusal(out, at, r),
    }
}

fn get_line(img: &[u8], out: &mut [u8], at: usize, key: Key) -> usize
    requires { at + 80 ≤ length out.old }
    ensures room { result ≤ at + 80 }
    ensures text { Written out.old out.new at result (val_text (get_of 256 512 (image_of img.now) key)) }
{
    match get(img, 256, 512, key) {
        Ok(v) => put_val(out, at, v),
        Err(r) => put_refusal(out, at, r),
    }
}

// Carries a command out and puts its answer into the output, which has room for the longest: a whole listing. A command is
// data that comes in, and is told apart here alone.
#[tactic(auto, unfolding(crate::specs::Answers::answer_of, crate::specs::Answers::image_after, crate::specs::Answers::kept_by))]
fn run(c: Command, img: &mut [u8], out: &mut [u8], at: usize) -> usize
    requires { at + 16911 ≤ length out.old }
    ensures room { result ≤ at + 16911 }
    ensures text { Written out.old out.new at result (answer_of 256 512 (image_of img.old) c) }
    ensures image { Leaves img.old img.new (kept_by 256 512 (image_of img.old) c) (image_after 256 512 (image_of img.old) c) }
{
    match c {
        Command::Insert(key, v) => insert_line(img, out, at, key, v),
        Command::Remove(key) => remove_line(img, out, at, key),
        Command::Get(key) => get_line(img, out, at, key),
        Command::Write(key, v) => write_line(img, out, at, key, v),
        Command::Smallest => answer_entry(out, at, get_min(img, 256, 512)),
        Command::Largest => answer_entry(out, at, get_max(img, 256, 512)),
        Command::All => put_all(img, out, at),
        Command::Bad => put_bad(out, at),
    }
}

// A line, without its LF: its answer's bytes go into the output from a place on, and the place behind them is the result.
pub fn line(text: &[u8], img: &mut [u8], out: &mut [u8], at: usize) -> usize
    requires { at + 16911 ≤ length out.old }
    ensures room { result ≤ at + 16911 }
    ensures text { Written out.old out.new at result (answer_of 256 512 (image_of img.old) (command_of text.now)) }
    ensures image { Leaves img.old img.new (kept_by 256 512 (image_of img.old) (command_of text.now)) (image_after 256 512 (image_of img.old) (command_of text.now)) }
{
    let c = parse(text);
    run(c, img, out, at)
}
