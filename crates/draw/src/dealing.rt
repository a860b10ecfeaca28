// Dealing: a list handed out one by one, in drawn order.
ghost use Rattle.std.specs.Prelude.{◌<◌, IsSome, MatchOption, vec_len};
ghost use Rattle.draw.specs.Dealing.{Undealt, Dealt};

use crate::DrawSource;

// What was dealt, and its index among what was left.
#[derive(Clone, Copy)]
pub struct Drawn<T> {
    pub index: u16,
    pub item: T,
}

// Draws below the number of what is left and takes that one out, the others in order.
// Nothing is drawn where nothing is left, or more than a draw can count.
pub fn deal<S: DrawSource, T>(source: &mut S, left: &mut Vec<T>) -> Option<Drawn<T>>
    ensures some { IsSome result → 0 < vec_len left.old }
    ensures drawn { MatchOption result (Undealt S.DrawSource.draws (S.DrawSource.state source.old) left.old.items (S.DrawSource.state source.new) left.new.items) (λ d. Dealt S.DrawSource.draws (S.DrawSource.state source.old) left.old.items d.index d.item (S.DrawSource.state source.new) left.new.items) }
{
    let count = u16::try_from(left.len()).ok()?;
    if count == 0 {
        return None;
    }
    let index = source.draw(count);
    let item = left.remove(usize::from(index));
    Some(Drawn { index, item })
}
