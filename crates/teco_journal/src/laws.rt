//! What holds of records as lines, and of the files of sessions.
ghost use Rattle.teco_journal.specs.Laws.{BytesTellOnce, ChangedLinesStop, CrashesLoseOne, FrontsTellFronts, WrittenIsRead};
ghost use Rattle.teco_journal.specs.FileLaws.{CutFilesLoseOne, CutHeadsAreTorn, FilesAreRead, FilesBegin, FilesGrow, FilesHoldOnce, FrontsHoldFronts, HeadsAreRead};

/// The laws of the lines, as its clauses. What was written is read, and bytes tell one list of events. Any front of any bytes tells a
/// front of their events, and a crash loses one record at most. At a line with another check the reading stops. The call does nothing.
pub fn journal_laws()
    ensures written { WrittenIsRead }
    ensures once { BytesTellOnce }
    ensures fronts { FrontsTellFronts }
    ensures crashes { CrashesLoseOne }
    ensures changed { ChangedLinesStop }
{}

/// The laws of the files, as its clauses. A head is read as itself, whatever comes after it, and one that was cut off is told as torn. A
/// file that was written is read, and bytes are the file of one session. A front with the head holds a front of the events. A file
/// begins as its head, one event more is one line more, and a crash in writing it loses no other. The call does nothing.
pub fn file_laws()
    ensures heads { HeadsAreRead }
    ensures torn { CutHeadsAreTorn }
    ensures written { FilesAreRead }
    ensures once { FilesHoldOnce }
    ensures fronts { FrontsHoldFronts }
    ensures begin { FilesBegin }
    ensures grow { FilesGrow }
    ensures crashes { CutFilesLoseOne }
{}
