// Prints rows: a label, and what stands behind it.
ghost use Rattle.std.specs.Iterator.{IsFinite};

use std::fmt::Display;
use std::io;

// Prints one row on a line of its own. Of its caller it asks that the entries come to an end: of an iterator of unknown
// type nothing else says so.
pub(crate) fn print_row<L: Display + Drop, I: Iterator>(
    rt: &HostRuntime,
    label: L,
    entries: I,
) -> io::Result<()>
where
    I::Item: Display + Drop,
    I: Drop,
    requires can { I.can_next entries }
    requires ends { IsFinite (I.remaining entries) }
{
    print!(rt; "{label}:")?;
    for entry in entries {
        print!(rt; " {entry}")?;
    }
    println!(rt; "")
}
