// Sheets and sheet files, by example.
use examples::world_a;
use sheet::{LoadRefusal, PlaceRefusal, PlaceTable, Sheet, ShortBuffer};
use std::test::Fail;
use world::World;

// What lies in well, shed and vault.
type Items = [Option<u16>; 3];

// A coin in the well, the lamp in the shed and the other coin in the vault; and the same in a file.
const COIN_FIRST: Items = [Some(1), Some(0), Some(2)];

const COIN_FIRST_FILE: [u8; 8] = [0, 3, 0, 2, 0, 1, 0, 3];

fn items(sheet: &Sheet) -> Items {
    [0, 1, 2].map(|place| sheet.table.item_at(place))
}

// What a new sheet holds once the file is loaded.
fn load(world: &World, file: &[u8]) -> Result<Items, LoadRefusal> {
    let mut sheet = Sheet::new();
    sheet.load(world, file)?;
    Ok(items(&sheet))
}

// What a sheet holds where one file is loaded after the other, refused or not.
fn load_both(world: &World, file: &[u8], other: &[u8]) -> Items {
    let mut sheet = Sheet::new();
    let _ = sheet.load(world, file);
    let _ = sheet.load(world, other);
    items(&sheet)
}

// Loads a file, refused or not, and writes what the sheet holds then.
fn write(world: &World, file: &[u8], buffer: &mut [u8]) -> Result<usize, ShortBuffer> {
    let mut sheet = Sheet::new();
    let _ = sheet.load(world, file);
    sheet.write(buffer)
}

// Sets an item and then another in a table that has none.
fn set_both(
    world: &World,
    first: (usize, u16),
    second: (usize, u16),
) -> Result<PlaceTable, PlaceRefusal> {
    let mut table = PlaceTable::for_world(world);
    table.set(first.0, first.1)?;
    table.set(second.0, second.1)?;
    Ok(table)
}

// Sets an item in a table that has none, and takes up a place.
fn set_and_take(world: &World, first: (usize, u16), place: usize) -> Result<u16, PlaceRefusal> {
    let mut table = PlaceTable::for_world(world);
    table.set(first.0, first.1)?;
    table.take_up(place)
}

#[test]
fn a_file_is_loaded_place_by_place(rt: HostRuntime) -> Result<(), Fail> {
    let world = world_a(rt.alloc())?;
    assert_eq!(rt; load(&world, &COIN_FIRST_FILE), Ok(COIN_FIRST));
    assert_eq!(rt;
        load(&world, &[0, 3, 0, 0, 0, 3, 0, 0]),
        Ok([None, Some(2), None])
    );
    Ok(())
}

#[test]
fn a_file_of_another_length_is_13(rt: HostRuntime) -> Result<(), Fail> {
    let world = world_a(rt.alloc())?;
    let wrong = Err(LoadRefusal::WrongLength);
    assert_eq!(rt; load(&world, &[0, 3, 0, 2, 0, 1, 0, 3, 0]), wrong);
    assert_eq!(rt; load(&world, &[0, 3, 0, 2, 0, 1, 0]), wrong);
    assert_eq!(rt; load(&world, &[0]), wrong);
    assert_eq!(rt; LoadRefusal::WrongLength.number(), 13);
    Ok(())
}

#[test]
fn another_count_is_14_whatever_the_length(rt: HostRuntime) -> Result<(), Fail> {
    let world = world_a(rt.alloc())?;
    let wrong = Err(LoadRefusal::WrongCount);
    assert_eq!(rt; load(&world, &[0, 2, 0, 2, 0, 1]), wrong);
    assert_eq!(rt; load(&world, &[3, 0]), wrong);
    assert_eq!(rt; LoadRefusal::WrongCount.number(), 14);
    Ok(())
}

#[test]
fn an_item_outside_the_pool_is_16(rt: HostRuntime) -> Result<(), Fail> {
    let world = world_a(rt.alloc())?;
    let outside = Err(LoadRefusal::OutsidePool);
    assert_eq!(rt; load(&world, &[0, 3, 0, 4, 0, 1, 0, 3]), outside);
    assert_eq!(rt; load(&world, &[0, 3, 1, 0, 0, 2, 0, 2]), outside);
    assert_eq!(rt; LoadRefusal::OutsidePool.number(), 16);
    Ok(())
}

#[test]
fn an_item_at_two_places_is_17(rt: HostRuntime) -> Result<(), Fail> {
    let world = world_a(rt.alloc())?;
    let twice = Err(LoadRefusal::ItemTwice);
    assert_eq!(rt; load(&world, &[0, 3, 0, 2, 0, 2, 0, 3]), twice);
    assert_eq!(rt; load(&world, &[0, 3, 0, 2, 0, 2, 0, 4]), twice);
    assert_eq!(rt; LoadRefusal::ItemTwice.number(), 17);
    Ok(())
}

#[test]
fn a_refused_file_leaves_the_sheet_as_it_was(rt: HostRuntime) -> Result<(), Fail> {
    let world = world_a(rt.alloc())?;
    let twice = [0, 3, 0, 1, 0, 1, 0, 0];
    assert_eq!(rt; load_both(&world, &COIN_FIRST_FILE, &twice), COIN_FIRST);
    Ok(())
}

#[test]
fn a_short_buffer_is_18_and_untouched(rt: HostRuntime) -> Result<(), Fail> {
    let world = world_a(rt.alloc())?;
    let mut short = [9; 7];
    assert_eq!(rt;
        write(&world, &COIN_FIRST_FILE, &mut short),
        Err(ShortBuffer)
    );
    assert_eq!(rt; ShortBuffer.number(), 18);
    assert_eq!(rt; short, [9; 7]);
    Ok(())
}

#[test]
fn a_file_is_written_as_it_was_and_what_lies_behind_is_kept(rt: HostRuntime) -> Result<(), Fail> {
    let world = world_a(rt.alloc())?;
    let mut buffer = [9; 10];
    assert_eq!(rt; write(&world, &COIN_FIRST_FILE, &mut buffer), Ok(8));
    assert_eq!(rt; buffer, [0, 3, 0, 2, 0, 1, 0, 3, 9, 9]);
    assert_eq!(rt; load(&world, &buffer[0..8]), Ok(COIN_FIRST));
    Ok(())
}

#[test]
fn an_item_lies_at_one_place(rt: HostRuntime) -> Result<(), Fail> {
    let world = world_a(rt.alloc())?;
    assert!(rt; set_both(&world, (0, 2), (1, 1)).is_ok());
    assert_eq!(rt;
        set_both(&world, (0, 2), (3, 1)).err(),
        Some(PlaceRefusal::NoPlace)
    );
    assert_eq!(rt;
        set_both(&world, (0, 2), (0, 1)).err(),
        Some(PlaceRefusal::PlaceTaken)
    );
    assert_eq!(rt;
        set_both(&world, (0, 2), (1, 256)).err(),
        Some(PlaceRefusal::NoItem)
    );
    assert_eq!(rt;
        set_both(&world, (0, 2), (1, 2)).err(),
        Some(PlaceRefusal::ItemSet)
    );
    Ok(())
}

#[test]
fn an_item_is_taken_up_where_it_lies(rt: HostRuntime) -> Result<(), Fail> {
    let world = world_a(rt.alloc())?;
    assert_eq!(rt; set_and_take(&world, (0, 2), 0), Ok(2));
    assert_eq!(rt;
        set_and_take(&world, (0, 2), 1),
        Err(PlaceRefusal::PlaceEmpty)
    );
    assert_eq!(rt; set_and_take(&world, (0, 2), 3), Err(PlaceRefusal::NoPlace));
    Ok(())
}
