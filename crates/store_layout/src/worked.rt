//! Worked values of the definitions. Each function does nothing, and the values are in its
//! contract.

ghost use Rattle.std.specs.Prelude.{◌≡◌, ◌++◌, ◌∷◌, [], true, false, Err, replicate};
ghost use Rattle.store_layout.specs.Group.{JournalHasRoom, group_encoding, payload_sectors, seal_encoding};
ghost use Rattle.store_layout.specs.GroupReading.{BadHeader, BadRecord, Gap, PastEnd};
ghost use Rattle.store_layout.specs.Worked.{raw_format, purge_command, purge_payload, seal_payload, marked_payload, nine_payload, open_sector, closed_sector, reads_as, reading};

/// The payload of one command at place 0, and of a seal at place 257.
pub fn worked_payloads()
    ensures group { group_encoding raw_format 0 (purge_command ∷ []) ≡ purge_payload }
    ensures seal { seal_encoding 257 ≡ seal_payload }
{}

/// The number of sectors of payloads, by the length of their records, and which payloads have room
/// in a journal of 516 sectors.
pub fn worked_sizes()
    ensures few { payload_sectors 13 ≡ 1 }
    ensures full { payload_sectors 496 ≡ 1 }
    ensures one_more { payload_sectors 497 ≡ 2 }
    ensures most { payload_sectors 262144 ≡ 513 }
    ensures room { JournalHasRoom 512 1 516 }
    ensures no_room { ¬ JournalHasRoom 514 1 516 }
    ensures largest { JournalHasRoom 0 513 516 }
{}

/// How journals of four sectors and fewer are read in version 1.
pub fn worked_journals()
    ensures closed { reads_as 1 7 closed_sector (reading [] 0 false 7) }
    ensures one { reads_as 1 0 (open_sector ++ purge_payload ++ closed_sector ++ closed_sector) (reading (purge_command ∷ []) 2 false 1) }
    ensures sealed { reads_as 1 257 (open_sector ++ seal_payload) (reading [] 0 true 257) }
    ensures header { reads_as 1 0 (open_sector ++ closed_sector) (Err BadHeader) }
    ensures gap { reads_as 1 1 (open_sector ++ purge_payload) (Err (Gap 1)) }
    ensures no_room { reads_as 1 0 (open_sector ++ purge_payload ++ closed_sector) (Err PastEnd) }
    ensures padding { reads_as 1 0 (open_sector ++ marked_payload ++ closed_sector ++ closed_sector) (Err BadRecord) }
    ensures last_sector { reads_as 1 0 open_sector (Err PastEnd) }
    ensures behind_a_group { reads_as 1 0 (open_sector ++ purge_payload ++ open_sector ++ seal_payload) (Err (Gap 1)) }
{}

/// A group of nine commands is a group from version 2 on.
pub fn worked_versions()
    ensures first { reads_as 1 0 (open_sector ++ nine_payload ++ closed_sector ++ closed_sector) (Err BadHeader) }
    ensures second { reads_as 2 0 (open_sector ++ nine_payload ++ closed_sector ++ closed_sector) (reading (replicate 9 purge_command) 2 false 9) }
{}
