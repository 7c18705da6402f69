ghost use Rattle.flow_keep.specs.Told.{EntriesAreTold, HistoriesAreTold};

/// An entry is told by its fifteen bytes, and a history by the file that keeps it.
pub fn law_records_tell_entries()
    ensures entries { EntriesAreTold }
    ensures histories { HistoriesAreTold }
{}
