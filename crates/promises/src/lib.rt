// What is promised of every board and of every run: each function's contract is a statement, and the function does nothing else.
#![tactic(auto)]

ghost use Rattle.promises.specs.Promises.{BoardsStaySupported, FillsReachEachWhole, FillsAreWhole, SourcesAreTheirAnswers, StartsAreWhole, TakesAreKept, RunsNeverStall};

use draw::DrawSource;
use inventory::Inventory;

// Whatever is called on a new board, the stock and the items not set gather every item that is set.
pub fn boards_stay_supported<I: Inventory>()
    ensures { BoardsStaySupported I.Inventory.meaning }
{}

// On a new board the placements that a fill can leave are exactly the whole ones.
pub fn fills_reach_each_whole<I: Inventory>()
    ensures { FillsReachEachWhole I.Inventory.meaning }
{}

// Whatever was called before and whatever is drawn, an accepted fill leaves a whole placement.
pub fn fills_are_whole<I: Inventory, S: DrawSource>()
    ensures { FillsAreWhole I.Inventory.meaning S.DrawSource.draws }
{}

// A source in any state is known, to every fill, by its answers to the sizes asked so far.
pub fn sources_are_their_answers<I: Inventory, S: DrawSource>()
    ensures { SourcesAreTheirAnswers I.Inventory.meaning S.DrawSource.draws }
{}

// With enough marks, start accepts exactly the whole placements, and with one of these just the finishable places have a sphere.
pub fn starts_are_whole<I: Inventory>()
    ensures { StartsAreWhole I.Inventory.meaning }
{}

// In a run just the places of accepted takes are taken.
pub fn takes_are_kept<I: Inventory>()
    ensures { TakesAreKept I.Inventory.meaning }
{}

// Whatever is called on a run, while a finishable place is ahead hint names an open one, and places open in the order of their spheres.
pub fn runs_never_stall<I: Inventory>()
    ensures { RunsNeverStall I.Inventory.meaning }
{}
