// Lending the work marks to a call's work.
ghost use Rattle.std.specs.Prelude.{◌≡◌, ◌<◌, ◌≤◌, length, MatchResult};
ghost use Rattle.scratch.specs.Lending.{work_marks, later, after_call, Worked};

use crate::{FewMarks, Places, Regions, WORK_MARKS};

// The bytes that a caller lends, while a call works with them.
pub(crate) struct Lent<'a> {
    pub(crate) bytes: &'a mut [u8],
}

// However a call ends, its caller finds no mark left behind; too few bytes are untouched.
impl Drop for Lent<'_> {
    fn drop(self)
        ensures { self.exit.0.now ≡ after_call self.entry.bytes.now }
    {
        let Lent { bytes } = self;
        if bytes.len() >= WORK_MARKS {
            bytes[..WORK_MARKS].fill(0);
        }
    }
}

// Lets some work use the first bytes as the marks of regions and places; nothing changes where there are too few.
// By `let .. else`: behind a `?` on `ok_or` the loan's end is not known.
fn use_first<T, F: FnOnce(&mut Regions, &mut Places) -> T>(
    bytes: &mut [u8],
    work: F,
) -> Result<T, FewMarks>
    requires { F.IsAlwaysCallable work }
    ensures answer { MatchResult result (λ t. (work_marks ≤ length bytes.old) × Worked bytes.old (F.post work) t) (λ e. length bytes.old < work_marks) }
    ensures few { length bytes.old < work_marks → bytes.new ≡ bytes.old }
    ensures later { later bytes.new ≡ later bytes.old }
{
    let Some((regions, others)) = bytes.split_first_chunk_mut::<64>() else {
        return Err(FewMarks);
    };
    let Some((places, _later)) = others.split_first_chunk_mut::<256>() else {
        return Err(FewMarks);
    };
    Ok(work(regions, places))
}

// Lets some work use the marks of regions and places, whatever they hold, and then zeroes them; refused where too few are lent.
// Of its caller it asks only that the closure may be called.
pub fn with_marks<T, F: FnOnce(&mut Regions, &mut Places) -> T>(
    lent: &mut [u8],
    work: F,
) -> Result<T, FewMarks>
    requires { F.IsAlwaysCallable work }
    ensures answer { MatchResult result (λ t. (work_marks ≤ length lent.old) × Worked lent.old (F.post work) t) (λ e. length lent.old < work_marks) }
    ensures marks { lent.new ≡ after_call lent.old }
{
    let lent = Lent { bytes: lent };
    use_first(lent.bytes, work)
}
