/// The five places that records are stored in, in the order in which they are opened.
#[derive(Clone, Copy, Debug, PartialEq, Eq)]
pub enum Area {
    /// Openings, commits and ends of transactions.
    Rows,
    /// Branches: what transactions link and unlink.
    Links,
    /// Changes of files.
    Files,
    /// Archived copies of files.
    Archive,
    /// Backups of the committed tables.
    Backups,
}
