//! What the answer of a run depends on.
ghost use Rattle.sm_cli.specs.RunLaws.{FilesDecideAnswer, JoinedFileStands, SightingsDecideAnswer};
ghost use Rattle.sm_cli.specs.RunLaws.{PrintedOrdersStand, SplitFileStands, SplitStoreStands};

/// If two lists of files keep the same sightings, in any order and however often, and the greatest of the files'
/// floors and the floor asked for is the same for both lists, then the answers for the two lists are equal.
pub fn sightings_decide_answer()
    ensures { SightingsDecideAnswer }
{}

/// If two lists of files have the same files, in any order and however often, then the answers for the two lists are
/// equal.
pub fn files_decide_answer()
    ensures { FilesDecideAnswer }
{}

/// A store file into which files were joined is accepted and stands for these files at its floor, alone or among
/// other files.
pub fn joined_file_stands()
    ensures { JoinedFileStands }
{}

/// The parts of a report file that is split between its records are accepted, and give the answer of the whole file,
/// alone or among other files.
pub fn split_file_stands()
    ensures { SplitFileStands }
{}

/// The parts of a store file that is split between its records, each with the floor of the whole, are accepted, and
/// give the answer of the whole file, alone or among other files.
pub fn split_store_stands()
    ensures { SplitStoreStands }
{}

/// If the facts are in range and no usable switch has the GUID 0, a printed order, given back as the order of a plan,
/// is printed as the same text again and gives the same plan, byte for byte.
pub fn printed_orders_stand()
    ensures { PrintedOrdersStand }
{}
