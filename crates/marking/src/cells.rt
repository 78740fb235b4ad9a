// Marks and cells of rows.
ghost use Rattle.std.specs.Prelude.{◌≡◌, ℕ, ◌≤◌, ◌<◌, ◌&&◌, ◌||◌, cond, not, eqb};
ghost use Rattle.marking.specs.Clauses.{CountOf};
ghost use Rattle.marking.specs.Dense.{other_than};

use files::limits;

// How many of the numbers below `count` pass a test.
// Kept: a sum of tests, where a filter would branch; this loop takes most of the time of covering.
pub fn count_where<F: Fn(usize) -> bool>(count: usize, test: F) -> u8
    requires few { count ≤ 64 }
    requires callable { (i : ℕ) → i < count → F.pre test i }
    ensures { CountOf (F.post test) count result }
{
    let mut passed = 0;
    for i in 0..count {
        passed += u8::from(test(i));
    }
    passed
}

// A mark, set where the test passes.
// Kept: a value chosen, where `if test { marks[i] = 1 }` would branch at each mark of a row.
pub fn raised(mark: u8, test: bool) -> u8
    ensures { result ≡ cond test 1 mark }
{
    if test { 1 } else { mark }
}

// Whether a cell of a row is there.
pub fn is_there(cell: u8) -> bool
    ensures { result ≡ not (eqb cell 255) }
{
    cell != limits::NO_PAIR
}

// Whether a cell of a row is there and is not the value given.
pub fn other_than(cell: u8, value: u8) -> bool
    ensures { result ≡ other_than cell value }
{
    if cell == limits::NO_PAIR {
        return false;
    }
    cell != value
}

// Whether one of three tests passes.
// Kept: a sum of tests, since `|` before an `if` is compiled to branches: with it, and with the pair's tests
// over `&Arrays`, marking 512 actions at level 4 took 1.7 ms in place of 1.1.
pub fn any_of(one: bool, other: bool, third: bool) -> bool
    ensures { result ≡ (one || (other || third)) }
{
    u8::from(one) + u8::from(other) + u8::from(third) != 0
}
