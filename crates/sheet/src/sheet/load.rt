// Loading a sheet file.
ghost use Rattle.std.specs.Prelude.{◌≡◌, ◌≤◌, length};
ghost use Rattle.std.specs.Result.{result_err};
ghost use Rattle.world.specs.Worlds.{world_of};
ghost use Rattle.sheet.specs.Changes.{told, left_by};
ghost use Rattle.sheet.specs.Tables.{Sound};
ghost use Rattle.sheet.specs.Files.{number as number_of, item_of, entries, entry_refusal, checked, loaded};

use super::Sheet;
use crate::refusal::LoadRefusal;
use crate::table::{PlaceRecord, PlaceTable, place_count};
use world::World;

// Two bytes as a number.
fn number(high: u8, low: u8) -> u16
    ensures { result ≡ number_of high low }
{
    u16::from_be_bytes([high, low])
}

// What lies at a place that has this number.
fn item_of(n: u16) -> PlaceRecord
    ensures { result ≡ item_of n }
{
    n.checked_sub(1)
}

// Whether what the file says may lie at the next place.
fn check_entry(pool: usize, seen: &PlaceTable, next: PlaceRecord) -> Result<(), LoadRefusal>
    ensures { result_err result ≡ entry_refusal pool seen.now next }
{
    match next {
        Some(item) if usize::from(item) >= pool => Err(LoadRefusal::OutsidePool),
        Some(item) if seen.is_set(item) => Err(LoadRefusal::ItemTwice),
        _ => Ok(()),
    }
}

// A table of what the bytes say, place by place.
fn read_entries(pool: usize, bytes: &[u8]) -> Result<PlaceTable, LoadRefusal>
    requires few_items { pool ≤ 256 }
    requires few_bytes { length bytes.now ≤ 512 }
    ensures { result ≡ checked pool (entries bytes.now) }
{
    let mut table = PlaceTable::new();
    let mut left = bytes;
    // two bytes at a time by a pattern, as all bytes are read in this repository
    while let [high, low, rest @ ..] = left {
        let next = item_of(number(*high, *low));
        check_entry(pool, &table, next)?;
        table.push(next);
        left = rest;
    }
    Ok(table)
}

// A table of what the file says.
#[tactic(auto, unfolding(crate::specs::Files::loaded))]
fn read(world: &World, file: &[u8]) -> Result<PlaceTable, LoadRefusal>
    ensures { result ≡ loaded (world_of world.now) file.now }
{
    let [high, low, rest @ ..] = file else {
        return Err(LoadRefusal::WrongLength);
    };
    let count = usize::from(number(*high, *low));
    if count != place_count(world) {
        return Err(LoadRefusal::WrongCount);
    }
    if file.len() != 2 + 2 * count {
        return Err(LoadRefusal::WrongLength);
    }
    read_entries(world.pool().len(), rest)
}

impl Sheet {
    // Becomes what the file says, which has to be of the world's places and pool; else nothing changes.
    pub fn load(&mut self, world: &World, file: &[u8]) -> Result<(), LoadRefusal>
        ensures answer { result ≡ told (loaded (world_of world.now) file.now) }
        ensures sheet { self.new.table ≡ left_by (loaded (world_of world.now) file.now) self.old.table }
        ensures before { Sound self.old.table }
        ensures sound { Sound self.new.table }
    {
        // Asked for its count, a table tells that it is sound: here the old one, and below the one that was read.
        prove!(self.table.count() <= 256);
        self.table = read(world, file)?;
        prove!(self.table.count() <= 256);
        Ok(())
    }
}
