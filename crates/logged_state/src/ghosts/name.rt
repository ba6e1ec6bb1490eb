//! Which state it is.

use command_log::LogName;
use std::marker::Brand;

/// Names one state by its log, and by its store when the state was made: its rows, its place and
/// its device.
pub trait StateName: LogName {
    ghost use Rattle.std.specs.Prelude.{List};
    ghost use Rattle.row_map.specs.Database.{RowView};
    ghost use Rattle.store_layout.specs.Opening.{StoreValue};
    ghost use Rattle.sector_dev.specs.Disk.{Disk};

    /// The rows and the place that the state opened with.
    ghost opening: { StoreValue (List RowView) };

    /// The device, as it was when the state was made.
    ghost start: { Disk };
}

impl StateName for Brand {
    ghost use Rattle.std.specs.Prelude.{[], false};

    ghost opening = { record { db = []; place = 0 } };

    ghost start = { record {
      is_honest = false;
      sectors = 0;
      faults = 0;
      history = record { past = []; now = record { reads = []; dirty = [] } };
    } };
}
