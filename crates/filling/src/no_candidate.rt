// The item at which an attempt was left, since no place was found for it.
#[derive(Clone, Copy, PartialEq, Eq, Debug, thiserror::Error)]
#[error("no place was found for item {item}")]
pub struct NoCandidate {
    pub item: u16,
}
