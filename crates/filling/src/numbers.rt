// The numbers below a count that pass a test.
ghost use Rattle.std.specs.Prelude.{◌≡◌, ℕ, ◌≤◌, Bool, filter};
ghost use Rattle.std.specs.List.{range_with_len};
ghost use Rattle.filling.specs.Passing.{Answers};

use arrayvec::ArrayVec;

// Lists the numbers that pass, in rising order. There is room for as many as a world has items, or places.
pub(crate) fn numbers_where<F: FnMut(&u16) -> bool>(count: u16, pass: F) -> ArrayVec<u16, 256>
    requires callable { (state : F) (number : _) → F.pre state number }
    requires few { count ≤ 256 }
    ensures { (test : ℕ → Bool) → Answers F.FnMut pass test → result.items ≡ filter test (range_with_len 0 count) }
{
    let mut listed = ArrayVec::new();
    listed.extend((0..count).filter(pass)).unwrap();
    listed
}
