// Lending the work marks to work that changes what it borrows.
ghost use Rattle.std.specs.Prelude.{◌≡◌, ◌<◌, ◌≤◌, length, MatchResult};
ghost use Rattle.scratch.specs.Lending.{work_marks, later, after_call, Worked};

use crate::lending::Lent;
use crate::{FewMarks, Places, Regions};

// As `use_first`, with the work behind a reference.
fn change_first<T, F: FnMut(&mut Regions, &mut Places) -> T>(
    bytes: &mut [u8],
    work: &mut F,
) -> Result<T, FewMarks>
    requires { F.IsAlwaysCallable work.old }
    ensures answer { MatchResult result (λ t. (work_marks ≤ length bytes.old) × Worked bytes.old (λ r p a r' p'. F.step work.old r p a r' p' work.new) t) (λ e. (length bytes.old < work_marks) × (work.new ≡ work.old)) }
    ensures few { length bytes.old < work_marks → bytes.new ≡ bytes.old }
    ensures later { later bytes.new ≡ later bytes.old }
{
    let Some((regions, others)) = bytes.split_first_chunk_mut::<64>() else {
        return Err(FewMarks);
    };
    let Some((places, _later)) = others.split_first_chunk_mut::<256>() else {
        return Err(FewMarks);
    };
    Ok(work(regions, places))
}

// As `with_marks`, for work that changes what it borrows: of what a closure leaves behind it, only one that is called
// through a reference tells. Where too few are lent it is as it was.
pub fn with_marks_mut<T, F: FnMut(&mut Regions, &mut Places) -> T>(
    lent: &mut [u8],
    work: &mut F,
) -> Result<T, FewMarks>
    requires { F.IsAlwaysCallable work.old }
    ensures answer { MatchResult result (λ t. (work_marks ≤ length lent.old) × Worked lent.old (λ r p a r' p'. F.step work.old r p a r' p' work.new) t) (λ e. (length lent.old < work_marks) × (work.new ≡ work.old)) }
    ensures marks { lent.new ≡ after_call lent.old }
{
    let lent = Lent { bytes: lent };
    change_first(lent.bytes, work)
}
