// Cutting a row of bytes in two.
ghost use Rattle.std.specs.Prelude.{MatchOption};
ghost use Rattle.words.specs.Splitting.{Whole, Cut};

// What stands before the first separator and what stands behind it, if there is one.
pub fn cut(separator: u8, part: &[u8]) -> Option<(&[u8], &[u8])>
    ensures { MatchOption result (Whole separator part.now) (λ p. Cut separator part.now p.0.now p.1.now) }
{
    let at = part.iter().position(|byte| *byte == separator)?;
    Some((&part[..at], &part[at + 1..]))
}
