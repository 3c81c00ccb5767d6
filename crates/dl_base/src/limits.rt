//! The bounds of the system. What would pass one is refused, or ends the run, and changes nothing; but the commits of several
//! transactions may together pass that of tables, and a restore those of tables and files, past which a CREATE TABLE and a create are
//! refused.

/// Bytes of a name.
pub const MOST_NAME_BYTES: usize = 64;

/// Bytes of a path.
pub const MOST_PATH_BYTES: usize = 1024;

/// Columns of a table.
pub const MOST_COLUMNS: usize = 64;

/// Bytes of a VARCHAR, by its column.
pub const MOST_VARCHAR_BYTES: u32 = 4000;

/// Bytes of a datalink's comment.
pub const MOST_COMMENT_BYTES: usize = 200;

/// Tables.
pub const MOST_TABLES: usize = 256;

/// Rows of a table.
pub const MOST_ROWS: usize = 1_000_000;

/// The number of a row is below it.
pub const ROW_NUMBERS: u64 = 9_223_372_036_854_775_808;

/// Sources of one FROM.
pub const MOST_SOURCES: usize = 8;

/// Combined rows of one FROM.
pub const MOST_COMBINED_ROWS: u64 = 10_000_000;

/// Operators and calls of one expression.
pub const MOST_OPERATORS: u32 = 255;

/// Parentheses of one expression that are open at once.
pub const MOST_OPEN_PARENTHESES: u32 = 256;

/// The greatest number of an opening, and of a transaction inside one.
pub const MOST_NUMBERS: u32 = 4_294_967_294;

/// Links that one transaction draws.
pub const MOST_LINKS: u32 = 1_000_000;

/// Files.
pub const MOST_FILES: usize = 65_536;

/// Actors of a script: its sessions and users.
pub const MOST_ACTORS: usize = 64;

/// Bytes of a user's or a session's name.
pub const MOST_ACTOR_NAME_BYTES: usize = 16;

/// Bytes of a line, without its end.
pub const MOST_LINE_BYTES: usize = 65_536;

/// Bytes of a script.
pub const MOST_SCRIPT_BYTES: usize = 67_108_864;
