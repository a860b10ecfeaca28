// Inventories, by example.
use crate::held::several;
use inventory::{Barren, Counts, Family, Inventory, Keys, NoSuchFamily, Tiers, WorldInventory};
use std::test::Fail;

#[test]
fn a_key_is_held_once_it_is_there_and_only_in_amount_one(rt: HostRuntime) {
    let keys = several::<Keys>(31, 2);
    assert!(rt; keys.holds(31, 1));
    assert!(rt; !keys.holds(31, 2));
    assert!(rt; !keys.holds(31, 0));
    assert!(rt; !keys.holds(30, 1));
    assert_eq!(rt; keys.count(), 1);
}

#[test]
fn an_unknown_code_is_worth_nothing_and_never_met(rt: HostRuntime) {
    let keys = several::<Keys>(32, 1);
    assert!(rt; !keys.holds(32, 1));
    assert_eq!(rt; keys.count(), 0);
    let counts = several::<Counts>(65535, 3);
    assert!(rt; !counts.holds(65535, 1));
    assert_eq!(rt; counts.total(), 0);
}

#[test]
fn five_swords_have_level_four(rt: HostRuntime) {
    let tiers = several::<Tiers>(0, 5);
    assert_eq!(rt; tiers.level(0), 4);
    assert!(rt; tiers.holds(0, 4));
    assert!(rt; !tiers.holds(0, 5));
}

#[test]
fn counts_stop_at_999(rt: HostRuntime) {
    let counts = several::<Counts>(7, 1200);
    assert_eq!(rt; counts.level(7), 999);
    assert!(rt; counts.holds(7, 999));
    assert!(rt; !counts.holds(7, 1000));
}

#[test]
fn each_family_has_its_own_codes_in_a_world(rt: HostRuntime) {
    assert_eq!(rt; Family::Key.code(3), 6);
    assert_eq!(rt; Family::Count.code(3), 13);
    assert_eq!(rt; Family::Tier.code(3), 15);
    let mut held = WorldInventory::empty();
    held.add(Family::Tier.code(3));
    assert!(rt; held.holds(Family::Tier.code(3), 1));
    assert!(rt; !held.holds(Family::Count.code(3), 1));
    assert!(rt; !held.holds(Family::Key.code(3), 1));
}

#[test]
fn a_family_is_printed_and_read_by_its_name(rt: HostRuntime) -> Result<(), Fail> {
    let families = [
        (Family::Key, "key"),
        (Family::Count, "count"),
        (Family::Tier, "tier"),
    ];
    for (family, name) in families {
        let printed = format!(in rt.alloc(); "{family}")?;
        assert_eq!(rt; printed.as_str(), name);
        assert_eq!(rt; name.parse::<Family>(), Ok(family));
    }
    assert_eq!(rt; "coin".parse::<Family>(), Err(NoSuchFamily));
    Ok(())
}

#[test]
fn a_barren_inventory_meets_nothing(rt: HostRuntime) {
    let nothing = several::<Barren>(0, 9);
    assert!(rt; !nothing.holds(0, 1));
}
