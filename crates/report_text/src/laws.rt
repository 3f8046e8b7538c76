//! What the definitions say.

ghost use Rattle.report_text.specs.Archive.{ByNameSorts, OrderIsFree, ArchiveTellsFiles};

/// Files by name are the same files, in rising order of names.
pub fn by_name_sorts()
    ensures { ByNameSorts }
{}

/// The archive doesn't depend on the order in which the files are given.
pub fn order_is_free()
    ensures { OrderIsFree }
{}

/// An archive determines its files: sorted by name, it is the archive of no others.
pub fn archive_tells_files()
    ensures { ArchiveTellsFiles }
{}
