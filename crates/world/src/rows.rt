// The rows of a world's tables.

// A rule: a part of the table of words. Memory is asked for once, for one table of all words, so no rule owns its own.
#[derive(Clone, Copy)]
pub struct Part {
    pub start: u16,
    pub len: u16,
}

// A one-way gate. `earlier` is the index of the last gate before this one that leaves the same region.
// The gates of a region are such a chain, since a list for each region would ask for memory of its own.
#[derive(Clone, Copy)]
pub struct Gate {
    pub near: u8,
    pub far: u8,
    pub rule: Part,
    pub earlier: Option<u16>,
}

#[derive(Clone, Copy)]
pub struct Place {
    pub region: u8,
    pub rule: Part,
}
