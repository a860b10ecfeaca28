// Worlds, by example.
use crate::world_a;
use explore::{FewMarks, Player, ask_sphere, ask_whole};
use inventory::{Family, Inventory, WorldInventory};
use model::RuleWord;
use scratch::{Places, Regions, WORK_MARKS, with_marks, with_marks_mut};
use std::test::Fail;
use world::{BuildRefusal, Draft, World};

const F: RuleWord = RuleWord::Free;

const A: RuleWord = RuleWord::And;

const LAMP: u16 = 0;

const COIN: u16 = 1;

const COIN_FIRST: [Option<u16>; 3] = [Some(1), Some(0), Some(2)];

const LAMP_FIRST: [Option<u16>; 3] = [Some(0), Some(1), Some(2)];

// Which of the three places are open with one item of each code.
fn open_with(world: &World, codes: &[u16]) -> Result<[bool; 3], FewMarks> {
    let mut held = WorldInventory::empty();
    for code in codes {
        held.add(*code);
    }
    let player = Player { world, held };
    let mut marks = [7; WORK_MARKS];
    let mut is_open = |place| player.ask_open(place, &mut marks);
    Ok([is_open(0)?, is_open(1)?, is_open(2)?])
}

#[test]
fn more_items_open_more_places(rt: HostRuntime) -> Result<(), Fail> {
    let world = world_a(rt.alloc())?;
    assert_eq!(rt; open_with(&world, &[]), Ok([true, false, false]));
    assert_eq!(rt; open_with(&world, &[COIN]), Ok([true, true, false]));
    assert_eq!(rt; open_with(&world, &[LAMP, COIN]), Ok([true, true, true]));
    Ok(())
}

#[test]
fn a_lamp_in_the_well_gathers_only_the_well(rt: HostRuntime) -> Result<(), Fail> {
    let world = world_a(rt.alloc())?;
    let player = Player {
        world: &world,
        held: WorldInventory::empty(),
    };
    let mut marks = [0; WORK_MARKS];
    assert_eq!(rt; player.ask_gathered(&LAMP_FIRST, 0, &mut marks), Ok(true));
    assert_eq!(rt; player.ask_gathered(&LAMP_FIRST, 1, &mut marks), Ok(false));
    assert_eq!(rt; player.ask_gathered(&LAMP_FIRST, 2, &mut marks), Ok(false));
    assert_eq!(rt;
        ask_whole::<WorldInventory>(&world, &LAMP_FIRST, &mut marks),
        Ok(false)
    );
    Ok(())
}

#[test]
fn a_coin_in_the_well_has_spheres_one_two_and_three(rt: HostRuntime) -> Result<(), Fail> {
    let world = world_a(rt.alloc())?;
    let mut marks = [255; WORK_MARKS];
    assert_eq!(rt;
        ask_sphere::<WorldInventory>(&world, &COIN_FIRST, 0, &mut marks),
        Ok(Some(1))
    );
    assert_eq!(rt;
        ask_sphere::<WorldInventory>(&world, &COIN_FIRST, 1, &mut marks),
        Ok(Some(2))
    );
    assert_eq!(rt;
        ask_sphere::<WorldInventory>(&world, &COIN_FIRST, 2, &mut marks),
        Ok(Some(3))
    );
    assert_eq!(rt;
        ask_sphere::<WorldInventory>(&world, &COIN_FIRST, 3, &mut marks),
        Ok(None)
    );
    assert_eq!(rt;
        ask_whole::<WorldInventory>(&world, &COIN_FIRST, &mut marks),
        Ok(true)
    );
    Ok(())
}

#[test]
fn too_few_marks_are_refused_and_untouched(rt: HostRuntime) -> Result<(), Fail> {
    let world = world_a(rt.alloc())?;
    let mut few = [9; 319];
    assert_eq!(rt;
        ask_whole::<WorldInventory>(&world, &COIN_FIRST, &mut few),
        Err(FewMarks)
    );
    assert_eq!(rt; FewMarks.number(), 19);
    assert_eq!(rt; few, [9; 319]);
    Ok(())
}

#[test]
fn no_work_is_done_with_too_few_marks(rt: HostRuntime) -> Result<(), Fail> {
    let mut few = [9; 319];
    let mut is_called = false;
    let work = |_: &mut Regions, _: &mut Places| {
        is_called = true;
    };
    assert_eq!(rt; with_marks(&mut few, work), Err(FewMarks));
    assert!(rt; !is_called);
    assert_eq!(rt; few, [9; 319]);
    Ok(())
}

#[test]
fn work_that_changes_what_it_borrows_is_done_once(rt: HostRuntime) -> Result<(), Fail> {
    let mut calls = 0u8;
    let mut work = |_: &mut Regions, places: &mut Places| {
        calls = calls.wrapping_add(1);
        places.fill(1);
    };
    let mut few = [9; 319];
    let mut enough = [9; 321];
    assert_eq!(rt; with_marks_mut(&mut few, &mut work), Err(FewMarks));
    assert_eq!(rt; with_marks_mut(&mut enough, &mut work), Ok(()));
    assert_eq!(rt; calls, 1);
    assert_eq!(rt; few, [9; 319]);
    assert_eq!(rt; enough[319], 0);
    assert_eq!(rt; enough[320], 9);
    Ok(())
}

#[test]
fn marks_are_zero_again_and_later_ones_kept(rt: HostRuntime) -> Result<(), Fail> {
    let world = world_a(rt.alloc())?;
    let mut more = [9; 322];
    assert_eq!(rt;
        ask_whole::<WorldInventory>(&world, &COIN_FIRST, &mut more),
        Ok(true)
    );
    assert_eq!(rt; more[0], 0);
    assert_eq!(rt; more[319], 0);
    assert_eq!(rt; more[320], 9);
    assert_eq!(rt; more[321], 9);
    Ok(())
}

#[test]
fn a_row_that_does_not_fit_is_refused(rt: HostRuntime) -> Result<(), Fail> {
    let mut draft = Draft::new(rt.alloc())?;
    let free = [RuleWord::Free];
    assert_eq!(rt; draft.add_gate(0, 0, &free), Err(BuildRefusal::NoRegion));
    assert_eq!(rt; draft.set_goal(&free), Err(BuildRefusal::NoRegion));
    assert_eq!(rt; draft.add_region(), Ok(0));
    assert_eq!(rt; draft.add_place(1, &free), Err(BuildRefusal::NoRegion));
    assert_eq!(rt; draft.add_place(0, &[]), Err(BuildRefusal::IllFormed));
    assert_eq!(rt;
        draft.add_place(0, &[RuleWord::Free, RuleWord::Or]),
        Err(BuildRefusal::IllFormed)
    );
    assert_eq!(rt;
        draft.add_place(0, &[RuleWord::Need { code: 0, amount: 1 }]),
        Err(BuildRefusal::NoKind)
    );
    assert_eq!(rt; draft.add_item(0), Err(BuildRefusal::NoKind));
    assert_eq!(rt; draft.add_kind(Family::Key), Ok(0));
    assert_eq!(rt; draft.add_kind(Family::Key), Ok(2));
    assert_eq!(rt; draft.add_kind(Family::Tier), Ok(3));
    assert_eq!(rt; draft.add_item(0), Ok(()));
    assert_eq!(rt; draft.set_goal(&free), Ok(()));
    assert_eq!(rt; draft.set_goal(&free), Err(BuildRefusal::GoalSet));
    Ok(())
}

#[test]
fn tables_hold_their_limit_and_no_more(rt: HostRuntime) -> Result<(), Fail> {
    let mut draft = Draft::new(rt.alloc())?;
    for _ in 0..64 {
        assert!(rt; draft.add_region().is_ok());
    }
    assert_eq!(rt; draft.add_region(), Err(BuildRefusal::Full));
    for _ in 0..32 {
        assert!(rt; draft.add_kind(Family::Count).is_ok());
    }
    assert_eq!(rt; draft.add_kind(Family::Count), Err(BuildRefusal::Full));
    for _ in 0..32 {
        assert!(rt; draft.add_stock(1).is_ok());
    }
    assert_eq!(rt; draft.add_stock(1), Err(BuildRefusal::Full));
    Ok(())
}

#[test]
fn eight_answers_may_wait_and_not_nine(rt: HostRuntime) -> Result<(), Fail> {
    let mut draft = Draft::new(rt.alloc())?;
    assert!(rt; draft.add_region().is_ok());
    let eight = [F, F, F, F, F, F, F, F, A, A, A, A, A, A, A];
    assert_eq!(rt; draft.add_place(0, &eight), Ok(()));
    let nine = [F, F, F, F, F, F, F, F, F, A, A, A, A, A, A, A, A];
    assert_eq!(rt; draft.add_place(0, &nine), Err(BuildRefusal::IllFormed));
    Ok(())
}
