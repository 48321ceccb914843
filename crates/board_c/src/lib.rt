// The archive for C firmware: lookup and the full check of `board`, each under its name in include/logfringe.h and with its own clauses.
#![tactic(auto)]

ghost use Rattle.std.specs.Prelude.{◌≡◌};
ghost use Rattle.records.specs.Layout.{image_of};
ghost use Rattle.records.specs.Numbers.{answer_number};
ghost use Rattle.board.specs.Output.{output_after, lookup_of};
ghost use Rattle.board.specs.Scratch.{board_check, scratch_after};

// The value of a key: 0, and 16 bytes of `out` are the value; or a refusal's number. An output of fewer than 16 bytes is refusal 1.
#[unsafe(no_mangle)]
pub extern "C" fn logfringe_get(
    img: &[u8],
    m: u32,
    n: u32,
    high: u64,
    low: u64,
    out: &mut [u8],
) -> u32
    ensures answer { result ≡ answer_number (lookup_of m n (image_of img.now) (record { high = high; low = low }) out.old) }
    ensures output { out.new ≡ output_after (lookup_of m n (image_of img.now) (record { high = high; low = low }) out.old) out.old }
{
    board::logfringe_get(img, m, n, high, low, out)
}

// The full check: 0 exactly if the header and all records pass; or a refusal's number. A scratch of fewer than 4M bytes is refusal 1.
#[unsafe(no_mangle)]
pub extern "C" fn logfringe_check(img: &[u8], m: u32, n: u32, scratch: &mut [u8]) -> u32
    ensures answer { result ≡ answer_number (board_check m n (image_of img.now) scratch.old) }
    ensures scratch { scratch.new ≡ scratch_after m (board_check m n (image_of img.now) scratch.old) scratch.old }
{
    board::logfringe_check(img, m, n, scratch)
}
