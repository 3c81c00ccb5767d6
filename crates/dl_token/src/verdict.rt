/// What a token is worth for reading a file at a moment.
#[derive(Clone, Copy)]
pub enum Verdict {
    Good,
    /// It was not made for this path, link and expiry.
    Wrong,
    /// It was good up to this moment, in seconds.
    Expired(u64),
}
