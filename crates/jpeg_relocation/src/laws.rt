//! Laws of the definitions. The functions do nothing: each clause holds of every file.
ghost use Rattle.jpeg_relocation.specs.Laws.{RunsArePieces, NewFileIsCut, MainIsPacket, KeptIsSame, PortionsAreNew, NewLengths};

/// Runs have the bytes of the regions that they join.
pub fn runs_are_pieces()
    ensures { RunsArePieces }
{}

/// The new file is a JPEG file of the stated regions, the new packet is its main one, and all that
/// stays keeps its bytes.
pub fn new_file_is_cut()
    ensures cut { NewFileIsCut }
    ensures main { MainIsPacket }
    ensures same { KeptIsSame }
{}

/// The portions that are found by the new name are the new ones, where no other bears it.
pub fn portions_are_new()
    ensures { PortionsAreNew }
{}

/// The numbers of the new file.
pub fn new_lengths()
    ensures { NewLengths }
{}
