ghost use Rattle.vol_core.specs.ReadLaws.{PlacesHoldSectors, PlacesAreOfObjectsRead, RowsAreRuns};

/// A law: where a volume shows a plain volume, each sector is where its maps have it, an object has the
/// sectors that the plain volume reads from it, and the shortest rows of a range have a row of data in the
/// log for each run that the plain volume reads.
pub fn a_read_through_the_maps_is_one_of_the_plain_volume()
    ensures sectors { PlacesHoldSectors }
    ensures objects { PlacesAreOfObjectsRead }
    ensures runs { RowsAreRuns }
{}
