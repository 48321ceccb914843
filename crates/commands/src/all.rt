// The listing from the front, entry by entry, one line each, and its last line.
ghost use Rattle.std.specs.Prelude.{◌+◌, ◌<◌, ◌≤◌, length};
ghost use Rattle.records.specs.Layout.{image_of};
ghost use Rattle.texts.specs.Put.{Written};
ghost use Rattle.commands.specs.Answers.{all_text};

use crate::answer::answer_close;
use listing::step::{list, next};
use texts::print::{put_end, put_entry};

// At most 256 lines of 66 bytes, and the last.
pub fn put_all(img: &[u8], out: &mut [u8], at: usize) -> usize
    requires { at + 16911 ≤ length out.old }
    ensures room { result ≤ at + 16911 }
    ensures text { Written out.old out.new at result (all_text 256 512 (image_of img.now)) }
{
    let mut p = list(img, 256, 512).position;
    let mut place = at;
    for count in 0..256 {
        let stepped = next(img, 256, 512, p);
        p = stepped.position;
        match stepped.entry {
            Ok((key, v)) => {
                place = put_entry(out, place, key, v);
            }
            Err(r) => {
                return answer_close(out, place, r, count);
            }
        }
    }
    put_end(out, place, 256)
}
