// What is counted of worked schedules: the contract is the worked examples, and there is nothing to do.
ghost use Rattle.watch_count.specs.Worked.{DoomedAttempts, DoomedInstructions, DoomedPhases, DoomedLines, DoomedConflicts};
ghost use Rattle.watch_count.specs.Worked.{DoomedRows, DoomedPlaces};
ghost use Rattle.watch_count.specs.Worked.{StaleFillAccesses, StaleFillRequests, DirtyEvictions, LateWriteBack};
ghost use Rattle.watch_count.specs.Worked.{OverflowAccesses, OverflowEvictions};

/// The counts of four schedules on two cores.
pub fn worked_counts()
    ensures doomed_attempts { DoomedAttempts }
    ensures doomed_instructions { DoomedInstructions }
    ensures doomed_phases { DoomedPhases }
    ensures doomed_lines { DoomedLines }
    ensures doomed_conflicts { DoomedConflicts }
    ensures doomed_rows { DoomedRows }
    ensures doomed_places { DoomedPlaces }
    ensures stale_fill_accesses { StaleFillAccesses }
    ensures stale_fill_requests { StaleFillRequests }
    ensures dirty_evictions { DirtyEvictions }
    ensures late_write_back { LateWriteBack }
    ensures overflow_accesses { OverflowAccesses }
    ensures overflow_evictions { OverflowEvictions }
{}
