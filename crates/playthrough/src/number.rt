// Reads numbers.
ghost use Rattle.std.specs.Prelude.{◌≡◌, ◌⊎◌, Ok, Err, MatchResult, slice_index};
ghost use Rattle.playthrough.specs.declared.fault.What.TheVariants.{NotANumber};

use crate::fault::What;
use std::str::FromStr;

// A number in digits alone: what its type reads of the word, but for a word that begins with a plus sign.
pub fn number<N: FromStr>(word: &str) -> Result<N, What>
where
    N::Err: Drop,
    ensures read { MatchResult result (λ n. N.from_str_gives word.now (Ok n)) (λ why. (why ≡ NotANumber) × ((slice_index word.now 0 ≡ 43) ⊎ ((e : _) × N.from_str_gives word.now (Err e)))) }
    ensures plus { slice_index word.now 0 ≡ 43 → result ≡ Err NotANumber }
{
    if word.starts_with('+') {
        return Err(What::NotANumber);
    }
    word.parse().map_err(|_| What::NotANumber)
}
