//! What a cache is for.

ghost use Rattle.block_cache.specs.Laws.{ReadsAreTheFiles};

/// Where the cached blocks are those of the files, a read with the cache gives what a read without it gives, and calls keep
/// them so.
pub fn reads_are_the_files()
    ensures { ReadsAreTheFiles }
{}
