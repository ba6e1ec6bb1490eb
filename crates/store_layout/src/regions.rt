//! Laws of the regions of an image.

ghost use Rattle.store_layout.specs.RegionLaws.{RegionsAreApart, RegionsAreInside, WritesLeaveRegionsApart, WritesLeaveOtherRegions, WritesChangeTheirRegion};

/// The regions of an image do not overlap, and are within the image.
pub fn regions_are_apart()
    ensures apart { RegionsAreApart }
    ensures inside { RegionsAreInside }
{}

/// A write within one region changes that region alone. Writes within several regions leave the
/// regions that they do not meet unchanged.
pub fn writes_leave_other_regions()
    ensures beside { WritesLeaveRegionsApart }
    ensures others { WritesLeaveOtherRegions }
    ensures within { WritesChangeTheirRegion }
{}
