// Writing a sheet file.
ghost use Rattle.std.specs.Prelude.{◌≡◌, ℕ, ◌+◌, ◌/◌, ◌%◌, ◌<◌, ◌≤◌, ◌++◌, length, take, drop, Some, Ok, IsOk};
ghost use Rattle.model.specs.Placements.{item_at};
ghost use Rattle.sheet.specs.Tables.{Sound};
ghost use Rattle.sheet.specs.Files.{entry as entry_of, file_of, two_bytes, write_answer, written};

use super::Sheet;
use crate::refusal::ShortBuffer;
use crate::table::{PlaceRecord, PlaceTable};

// How a file names what lies at a place.
fn entry(found: PlaceRecord) -> u16
    requires { entry_of found ≤ 256 }
    ensures { result ≡ entry_of found }
{
    found.map_or(0, |item| item + 1)
}

// Writes a number as two bytes, the high one first.
fn put_number(buffer: &mut [u8], at: usize, n: u16)
    requires { at + 2 ≤ length buffer.old }
    ensures { buffer.new ≡ take at buffer.old ++ two_bytes n ++ drop (at + 2) buffer.old }
{
    buffer[at..at + 2].copy_from_slice(&n.to_be_bytes());
}

// How many bytes a table's file has.
fn file_len(table: &PlaceTable) -> usize
    ensures size { result ≡ length (file_of table.now) }
    ensures few { result ≤ 514 }
    ensures sound { Sound table.now }
{
    2 + 2 * table.placement().len()
}

// Writes a table's file into a buffer that has room for it.
fn put_file(table: &PlaceTable, buffer: &mut [u8])
    requires { length (file_of table.now) ≤ length buffer.old }
    ensures { buffer.new ≡ file_of table.now ++ drop (length (file_of table.now)) buffer.old }
{
    let placement = table.placement();
    put_number(buffer, 0, placement.len() as u16);
    // by offsets: nothing is known of what `chunks_exact_mut` leaves behind a `for`
    for (place, found) in placement.iter().enumerate() {
        put_number(buffer, 2 + 2 * place, entry(*found));
    }
}

impl Sheet {
    // Writes the sheet's file, and answers how many bytes it has; what lies behind them is kept.
    pub fn write(&self, buffer: &mut [u8]) -> Result<usize, ShortBuffer>
        ensures answer { result ≡ write_answer self.now.table buffer.old }
        ensures buffer { buffer.new ≡ written self.now.table buffer.old }
        ensures few { (n : ℕ) → result ≡ Ok n → n ≤ 514 }
        ensures room { 514 ≤ length buffer.old → IsOk result }
        ensures sound { Sound self.now.table }
    {
        let needed = file_len(&self.table);
        if buffer.len() < needed {
            return Err(ShortBuffer);
        }
        put_file(&self.table, buffer);
        Ok(needed)
    }
}
