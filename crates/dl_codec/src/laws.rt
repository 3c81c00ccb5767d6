// What the layouts of the records promise. The functions do nothing: they carry laws.
ghost use Rattle.dl_codec.specs.Archive.{archive_record};
ghost use Rattle.dl_codec.specs.Backups.{backup_record};
ghost use Rattle.dl_codec.specs.Files.{owner, file_row, file_change, files_record};
ghost use Rattle.dl_codec.specs.Layout.{IsSound, u32 as number32, u64 as number64, i64 as signed64, bool as flag, text, path, name};
ghost use Rattle.dl_codec.specs.Links.{links_record};
ghost use Rattle.dl_codec.specs.Rows.{rows_record};

/// Each record of the area Rows has one spelling, and what is read as one is spelled so.
pub fn rows_records_have_one_spelling()
    ensures { IsSound rows_record }
{}

/// Each record of the area Links has one spelling, and what is read as one is spelled so.
pub fn links_records_have_one_spelling()
    ensures { IsSound links_record }
{}

/// Each record of the area Archive has one spelling, and what is read as one is spelled so.
pub fn archive_records_have_one_spelling()
    ensures { IsSound archive_record }
{}

/// Each record of the area Backups has one spelling, and what is read as one is spelled so.
pub fn backup_records_have_one_spelling()
    ensures { IsSound backup_record }
{}

/// What is read by each layout is spelled so, and what is spelled so is read, whatever stands behind it: numbers, flags,
/// texts, paths and names, and what the records of the area Files are made of.
pub fn layouts_are_sound()
    ensures u32 { IsSound number32 }
    ensures u64 { IsSound number64 }
    ensures i64 { IsSound signed64 }
    ensures bool { IsSound flag }
    ensures text { IsSound text }
    ensures path { IsSound path }
    ensures name { IsSound name }
    ensures owner { IsSound owner }
    ensures file_row { IsSound file_row }
    ensures file_change { IsSound file_change }
    ensures files_record { IsSound files_record }
{}
