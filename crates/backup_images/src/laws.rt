//! What the definitions of segments mean.

ghost use Rattle.backup_images.specs.Laws.{ABatchTwice, CompactedIsLight, CompactedKeepsImages};

/// A list that was compacted weighs at most 8192 bytes an image and a MiB, where no image has more bytes than a page.
pub fn compacted_lists_are_light()
    ensures { CompactedIsLight }
{}

/// A list that was compacted has the images that it had.
pub fn compacted_lists_keep_their_images()
    ensures { CompactedKeepsImages }
{}

/// A batch of patches that is applied twice gives the same images as applied once, where each patch lies within its page and
/// each image has the bytes of a page.
pub fn a_batch_applied_twice_gives_the_images_of_once()
    ensures { ABatchTwice }
{}
