//! Laws of reading files. None of these functions is called. Only their contracts count.

ghost use Rattle.record_file.specs.StoreLaws.{AbsorbingReadsBack, FactsAreReadBack, FactsHaveOneSpelling};
ghost use Rattle.record_file.specs.StoreLaws.{RecordsAreSpellings, StoreFilesAreAccepted};
ghost use Rattle.record_file.specs.Laws.{BadPartStays, FirstBadRecordIsTold, ReportFilesAreAccepted};
ghost use Rattle.record_file.specs.Laws.{ReportsHaveOneSpelling, TruncationIsTold};
ghost use Rattle.record_file.specs.PieceLaws.{CutsChangeNothing, FaultsStay, PiecesAreRead};

use byte_io::Source;

/// If bytes have a bad header or a bad record, then their fault, their floor and the facts that are kept of them stay
/// the same, whatever follows.
pub fn bad_part_stays()
    ensures { BadPartStays }
{}

/// If a file has only good records and ends within a further record, after fewer than 2^40 bytes, it is rejected as
/// truncated at the offset of that record.
pub fn truncation_is_told()
    ensures { TruncationIsTold }
{}

/// If a file has a bad record after good records, and the bad record ends within the first 2^40 bytes, the file is
/// rejected for this record, with the record's index.
pub fn first_bad_record_is_told()
    ensures { FirstBadRecordIsTold }
{}

/// If a report fits in a record, 272 bytes spell this report exactly when they are the bytes that are written for the
/// report.
pub fn reports_have_one_spelling()
    ensures { ReportsHaveOneSpelling }
{}

/// A file of reports is accepted exactly when it has fewer than 2^40 bytes and is the magic followed by good reports.
pub fn report_files_are_accepted()
    ensures { ReportFilesAreAccepted }
{}

/// A record of a store file spells a sighting exactly when its bytes are those that are written for that sighting.
pub fn records_are_spellings()
    ensures { RecordsAreSpellings }
{}

/// Bytes with the head of a store file are accepted exactly when they are fewer than 2^40, and are the store file of
/// some set of facts in range. This set has the floor in the head, or floor 1 if the head has no floor.
pub fn store_files_are_accepted()
    ensures { StoreFilesAreAccepted }
{}

/// If the store file of a set of facts in range has fewer than 2^40 bytes, it is read back as this set. The floor of
/// the set is the floor in the head, or 1 if the head has no floor.
pub fn facts_are_read_back()
    ensures { FactsAreReadBack }
{}

/// If two store files are accepted, have a floor in their heads, and contain equal sets of facts, the files are
/// equal.
pub fn facts_have_one_spelling()
    ensures { FactsHaveOneSpelling }
{}

/// If an empty store absorbs the store file of a set of facts without a fault, from a source whose bytes are known,
/// the store then has this set.
pub fn absorbing_reads_back<S: Source>()
    ensures { AbsorbingReadsBack S.state }
{}

/// If memory does not run out at any piece, a file that comes in pieces is read as if it came whole.
pub fn pieces_are_read()
    ensures { PiecesAreRead }
{}

/// If memory does not run out at any piece, neither the answer nor the store depends on where a file is cut into
/// pieces.
pub fn cuts_change_nothing()
    ensures { CutsChangeNothing }
{}

/// If the bytes that have come of a file have a fault, this fault stays, whatever follows. So do the floor and the
/// facts that are kept.
pub fn faults_stay()
    ensures { FaultsStay }
{}
