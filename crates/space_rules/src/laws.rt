//! What the definitions say of single pages and addresses.

ghost use Rattle.space_rules.specs.Mapped.{BootMapsTheLoads, ImageMapsLoadsAndStack, ImageHasFewRuns};
ghost use Rattle.space_rules.specs.Place.{PlaceIsLowest};
ghost use Rattle.space_rules.specs.Standing.{StackIsWithin};
ghost use Rattle.space_rules.specs.Told.{StackTellsAll};

/// Booting maps each page that a load meets with the union of the permissions of the loads that meet it,
/// and no other page.
pub fn boot_maps_the_loads()
    ensures { BootMapsTheLoads }
{}

/// A process begins with the pages of its image's loads, as above, and with those of the stack to read
/// and to write.
pub fn image_maps_loads_and_stack()
    ensures { ImageMapsLoadsAndStack }
{}

/// A process begins with at most two runs for each load and two more.
pub fn image_has_few_runs()
    ensures { ImageHasFewRuns }
{}

/// The place of a mapping is the lowest page address, among those for mappings, from which all bytes of
/// the length are unmapped and end within the address space; where there is none, no address is one.
pub fn place_is_lowest()
    ensures { PlaceIsLowest }
{}

/// Strings that aren't too big have their stack within its pages, up to its end, from a multiple of 16.
pub fn stack_is_within()
    ensures { StackIsWithin }
{}

/// A program that reads its stack finds how many arguments it has, each argument and each string of the
/// environment at the address that its word tells, and the auxiliary vector.
pub fn stack_tells_all()
    ensures { StackTellsAll }
{}
