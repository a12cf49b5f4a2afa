//! Laws of the definitions. The functions do nothing: each clause holds of every file.
ghost use Rattle.tiff_relocation.specs.Apart.{NewFileIsWalked, OldBytesStay};

/// Where nothing else names the exchanged numbers, the new file has directories, the new packet and the
/// old pictures.
pub fn new_file_is_walked()
    ensures { NewFileIsWalked }
{}

/// All but the exchanged numbers stays; where nothing else names these, each picture keeps its bytes.
pub fn old_bytes_stay()
    ensures { OldBytesStay }
{}
