// How a place stands in a run.
#[derive(Clone, Copy, PartialEq, Eq, Debug)]
pub enum Sight {
    Taken,
    Open,
    Closed,
}
