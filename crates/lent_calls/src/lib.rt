// Every call of the map once more, and the board's two, with key and value as words: what the contract of each one's own function says is what crate `lent` asks of a run (`Ran`, `MoveRan`) and of the board
// (`Looked`, `Checked`). So whoever calls the functions of the map, in whatever order, has such a history, and nothing is left to be compared by eye. Nothing is added to a call, and nothing calls these
// functions.
#![tactic(auto)]

ghost use Rattle.std.specs.Prelude.{true, false};
ghost use Rattle.lists.specs.Answers.{done_is, got_is, place_is, entry_is, count_from};
ghost use Rattle.lent.specs.Histories as lent;
ghost use Rattle.lent.specs.Histories.{Ran, RanBy, RanWith};
ghost use Rattle.lent.specs.Listings.{MadeRan, StepRan};
ghost use Rattle.board.specs.Promises.{Looked, Checked};

use keys::Key;
use listing::{Made, Position, Stepped};
use records::{NodeIndex, Refusal, Value};

pub fn start(img: &mut [u8], m: u32, n: u32) -> Result<(), Refusal>
    ensures { Ran m n lent.start img.old (done_is result) img.new }
{
    lookup::start::start(img, m, n)
}

pub fn insert(
    img: &mut [u8],
    m: u32,
    n: u32,
    high: u64,
    low: u64,
    first: u64,
    second: u64,
) -> Result<NodeIndex, Refusal>
    ensures { RanWith m n lent.insert high low first second img.old (place_is result) img.new }
{
    insert::insert(img, m, n, Key { high, low }, Value { first, second })
}

pub fn remove(img: &mut [u8], m: u32, n: u32, high: u64, low: u64) -> Result<Value, Refusal>
    ensures { RanBy m n lent.remove high low img.old (got_is result) img.new }
{
    remove::remove(img, m, n, Key { high, low })
}

pub fn set(
    img: &mut [u8],
    m: u32,
    n: u32,
    high: u64,
    low: u64,
    first: u64,
    second: u64,
) -> Result<(), Refusal>
    ensures { RanWith m n lent.write high low first second img.old (done_is result) img.new }
{
    lookup::get::set(img, m, n, Key { high, low }, Value { first, second })
}

pub fn get(img: &[u8], m: u32, n: u32, high: u64, low: u64) -> Result<Value, Refusal>
    ensures { RanBy m n lent.get high low img.now (got_is result) img.now }
{
    lookup::get::get(img, m, n, Key { high, low })
}

pub fn contains(img: &[u8], m: u32, n: u32, high: u64, low: u64) -> Result<(), Refusal>
    ensures { RanBy m n lent.contains high low img.now (done_is result) img.now }
{
    lookup::get::contains(img, m, n, Key { high, low })
}

pub fn get_addr(img: &[u8], m: u32, n: u32, high: u64, low: u64) -> Result<NodeIndex, Refusal>
    ensures { RanBy m n lent.address high low img.now (place_is result) img.now }
{
    lookup::get::get_addr(img, m, n, Key { high, low })
}

pub fn len(img: &[u8], m: u32, n: u32) -> Result<u64, Refusal>
    ensures { Ran m n lent.len img.now (count_from result) img.now }
{
    lookup::start::len(img, m, n)
}

pub fn capacity(img: &[u8], m: u32, n: u32) -> Result<u64, Refusal>
    ensures { Ran m n lent.capacity img.now (count_from result) img.now }
{
    lookup::start::capacity(img, m, n)
}

pub fn get_min(img: &[u8], m: u32, n: u32) -> Result<(Key, Value), Refusal>
    ensures { Ran m n lent.smallest img.now (entry_is result) img.now }
{
    lookup::ends::get_min(img, m, n)
}

pub fn get_max(img: &[u8], m: u32, n: u32) -> Result<(Key, Value), Refusal>
    ensures { Ran m n lent.largest img.now (entry_is result) img.now }
{
    lookup::ends::get_max(img, m, n)
}

pub fn check(img: &[u8], m: u32, n: u32, scratch: &mut [u8]) -> Result<(), Refusal>
    ensures { Ran m n (lent.check scratch.old) img.now (done_is result) img.now }
{
    full_check::check(img, m, n, scratch)
}

pub fn list(img: &[u8], m: u32, n: u32) -> Made
    ensures { MadeRan m n img.now result }
{
    listing::step::list(img, m, n)
}

pub fn next(img: &[u8], m: u32, n: u32, p: Position) -> Stepped
    ensures { StepRan false m n img.now p result }
{
    listing::step::next(img, m, n, p)
}

pub fn next_back(img: &[u8], m: u32, n: u32, p: Position) -> Stepped
    ensures { StepRan true m n img.now p result }
{
    listing::step::next_back(img, m, n, p)
}

pub fn board_get(img: &[u8], m: u32, n: u32, high: u64, low: u64, out: &mut [u8]) -> u32
    ensures { Looked m n img.now (record { high = high; low = low }) out.old result out.new }
{
    board::logfringe_get(img, m, n, high, low, out)
}

pub fn board_check(img: &[u8], m: u32, n: u32, scratch: &mut [u8]) -> u32
    ensures { Checked m n img.now scratch.old result scratch.new }
{
    board::logfringe_check(img, m, n, scratch)
}
