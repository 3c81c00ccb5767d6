/// The kinds of calls of a bench, each of which is counted from 1.
#[derive(Clone, Copy, PartialEq, Eq)]
pub enum Call {
    Length,
    Read,
    Write,
    Renew,
    Sync,
    Say,
}
