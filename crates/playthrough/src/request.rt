// What the program is asked to deal: a source, and the items in the order of the input.
ghost use Rattle.std.specs.Prelude.{◌≤◌, IfOk, vec_len};

use crate::fault::{Fault, What};
use crate::item::Item;
use crate::number::number;
use draw::{Seeded, Tape};
use std::alloc::Global;

// Numbers that a tape can be made of.
#[derive(Drop)]
pub struct Numbers {
    pub numbers: Vec<u16>,
    ghost few: { vec_len numbers ≤ 512 },
}

#[derive(Drop)]
pub enum Chosen {
    Seed(Seeded),
    Tape(Numbers),
}

#[derive(Drop)]
pub struct Request {
    pub source: Chosen,
    pub items: Vec<Item>,
    ghost few: { vec_len items ≤ 256 },
}

impl Numbers {
    // Behind the first number that is too many none is looked at.
    fn read(heap: Global, words: &str) -> Result<Numbers, What> {
        let numbers: Vec<u16> = words.split(' ').take(513).map(number).try_collect(heap)?;
        Tape::new(numbers.as_slice())?;
        Ok(Numbers { numbers })
    }
}

fn source(heap: Global, line: &str) -> Result<Chosen, What> {
    match line.split_once(' ') {
        Some(("seed", word)) => Ok(Chosen::Seed(Seeded::new(number(word)?)?)),
        Some(("tape", words)) => Ok(Chosen::Tape(Numbers::read(heap, words)?)),
        _ => Err(What::NoSource),
    }
}

impl Request {
    // Nothing to deal yet.
    fn new(heap: Global, source: Chosen) -> Request {
        Request {
            source,
            items: Vec::new(heap),
        }
    }

    fn put_line(&mut self, line: &str) -> Result<(), What> {
        let item = line.parse()?;
        if self.items.len() >= 256 {
            return Err(What::TooManyItems);
        }
        self.items.push(item)?;
        Ok(())
    }
}

fn read_text(heap: Global, text: &str) -> Result<Request, Fault> {
    let mut lines = text.lines();
    let first = lines.next().ok_or(What::NoSource.at_line(1))?;
    let source = source(heap, first).map_err(|what| what.at_line(1))?;
    let mut request = Request::new(heap, source);
    for (number, line) in (2..).zip(lines) {
        request.put_line(line).map_err(|what| what.at_line(number))?;
    }
    Ok(request)
}

// Reads an input whole, or says what is wrong with it first; at most 256 items are taken in.
pub fn read(heap: Global, bytes: &[u8]) -> Result<Request, Fault>
    ensures { IfOk result (λ q. vec_len q.items ≤ 256) }
{
    let text = std::str::from_utf8(bytes).map_err(|_| What::NotText.at_line(0))?;
    read_text(heap, text)
}
