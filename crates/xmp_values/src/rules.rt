//! The rules that a file, a script or an edit can break.
//!
//! A rule has a number, which in XML and RDF orders the rules that hold at one place, and a
//! name, which the program prints. Two rules bear the name `BadTag`: of XML, and of a script's language
//! tag, whose variant is `BadLanguageTag`.
ghost use Rattle.std.specs.Prelude.{◌≡◌};
ghost use Rattle.xmp_values.specs.Rules.{number_of, name_of};

/// A rule that can be broken. Its number and its name are flat tables.
#[derive(Clone, Copy, Debug, PartialEq, Eq)]
pub enum Rule {
    // Files
    /// 1: no kind of file holds.
    NotKnown,
    /// 2: the file is longer than the limit.
    FileLimit,
    /// 3: the file or the script isn't there.
    NoFile,
    /// 9: a form that isn't built yet.
    NotBuilt,
    // JPEG segments and extended text
    /// 10: no FF stands where a segment must begin, or the marker is 00 or D8.
    BadMarker,
    /// 11: a segment's length is under 2.
    BadLength,
    /// 12: the file ends inside a segment.
    Truncated,
    /// 13: the file ends where a segment could begin.
    NoTail,
    /// 14: a second packet.
    TwoPackets,
    /// 15: the portions don't tile the extended text.
    Gap,
    /// 16: a packet or an extended text over its limit.
    XmpLimit,
    // TIFF directories
    /// 20: a file shorter than its header.
    ShortHeader,
    /// 21: a directory outside the file.
    DirectoryOut,
    /// 22: an offset is reached a second time.
    DirectoryTwice,
    /// 23: a 1,001st directory.
    TooManyDirectories,
    /// 24: a value outside the file.
    ValueOut,
    /// 25: a picture range outside the file.
    RegionOut,
    /// 26: the packet's entry is of another type.
    PacketType,
    /// 27: the packet or the resources meet another named range.
    Overlap,
    /// 28: a BigTIFF header that isn't one.
    BigTiff,
    /// 29: a directory of over 65,535 entries.
    DirectoryLong,
    // XML
    /// 40: the text is UTF-16.
    Utf16,
    /// 41: the text isn't UTF-8.
    NotUtf8,
    /// 42: a character that is no Char.
    BadChar,
    /// 43: a document type declaration.
    Doctype,
    /// 44: no reference after `&`.
    BadReference,
    /// 45: no tag after `<`.
    BadTag,
    /// 46: no comment after `<!--`.
    BadComment,
    /// 47: no instruction after `<?`.
    BadInstruction,
    /// 48: another encoding than UTF-8.
    Encoding,
    /// 49: no CDATA section after `<![CDATA[`.
    BadCdata,
    /// 50: a piece that can't stand outside the root.
    OutsideRoot,
    /// 51: an end tag of another name.
    Mismatch,
    /// 52: a declaration that isn't allowed.
    BadNamespace,
    /// 53: a prefix that isn't bound.
    UnboundPrefix,
    /// 54: two attributes of one name.
    TwiceAttribute,
    /// 55: an element at depth 101.
    TooDeep,
    /// 56: the text ends with an element open, or with no root.
    Unfinished,
    // RDF
    /// 60: no `rdf:RDF`.
    NoRdf,
    /// 61: a top element that isn't `rdf:Description`.
    NotDescription,
    /// 62: two different abouts.
    AboutDiffers,
    /// 63: an element or attribute without namespace.
    NoNamespace,
    /// 64: a name of XML's namespace.
    XmlName,
    /// 65: a property of RDF's namespace.
    RdfName,
    /// 66: an attribute that isn't allowed here.
    RefusedAttribute,
    /// 67: another `rdf:parseType` than `Resource`.
    BadParseType,
    /// 68: text beside elements.
    Mixed,
    /// 69: two or more nodes in one property.
    ManyNodes,
    /// 70: a node of RDF's namespace.
    BadContainer,
    /// 71: an item that isn't `rdf:li`.
    BadItem,
    /// 72: two values.
    TwiceValue,
    /// 73: two members of one name.
    Twice,
    /// 74: a tree that is too deep.
    TreeDeep,
    // Scripts and edits
    /// 78: the script is over its limit.
    ScriptLimit,
    /// 79: the script isn't UTF-8.
    ScriptUtf8,
    /// 80: a line of no form.
    BadLine,
    /// 81: a path that isn't of the grammar.
    BadPath,
    /// 82: a prefix that isn't found.
    UnknownPrefix,
    /// 83: a name or prefix that is reserved.
    Reserved,
    /// 84: a text with a character that is no Char.
    BadText,
    /// 85: a language tag of no form.
    BadLanguageTag,
    /// 86: an edit that is too deep.
    EditDeep,
    /// 87: a place that isn't there.
    NoSuchPlace,
    /// 88: a value of another shape.
    WrongShape,
    /// 89: a number outside the array.
    OutOfArray,
    // Writing
    /// 90: the packet fits no segment.
    SegmentLimit,
    /// 91: a directory or a file that TIFF can't hold.
    TiffLimit,
    /// 92: lengths after a multi-picture index change.
    AfterMultiPicture,
    /// 93: the packet doesn't fit in place.
    NeedsRelocation,
    /// 94: the output is longer than the limit.
    OutLimit,
    // Resources, IPTC, Exif
    /// 100: a resource outside its block.
    ResourceOut,
    /// 101: no dataset where one must begin.
    BadDataset,
    /// 102: a dataset outside its block.
    DatasetOut,
    /// 103: a dataset's size of another form.
    DatasetLong,
    /// 104: an Exif block without header.
    ExifHeader,
    /// 105: an Exif directory outside its block.
    ExifDirectory,
    /// 106: an Exif value outside its block.
    ExifValue,
    /// 107: a block over its limit.
    BlockLimit,
    // WebP
    /// 110: a chunk outside the file.
    RiffOut,
    /// 111: no `VP8X` chunk to flag the packet.
    NoVp8x,
    /// 112: a file that RIFF can't hold.
    RiffLimit,
    // PSD
    /// 120: a block outside the file.
    PsdOut,
    /// 121: resources that a PSD can't hold.
    PsdLimit,
    // Writing back
    /// 130: a file that can't be synced.
    NotSynced,
    /// 131: an Exif block that fits no segment.
    ExifLimit,
    /// 132: a resource list that fits no segment.
    ResourceLimit,
}

impl Rule {
    /// The rule's number.
    pub fn number(&self) -> u32
        ensures { result ≡ number_of self.now }
    {
        match self {
            Rule::NotKnown => 1,
            Rule::FileLimit => 2,
            Rule::NoFile => 3,
            Rule::NotBuilt => 9,
            Rule::BadMarker => 10,
            Rule::BadLength => 11,
            Rule::Truncated => 12,
            Rule::NoTail => 13,
            Rule::TwoPackets => 14,
            Rule::Gap => 15,
            Rule::XmpLimit => 16,
            Rule::ShortHeader => 20,
            Rule::DirectoryOut => 21,
            Rule::DirectoryTwice => 22,
            Rule::TooManyDirectories => 23,
            Rule::ValueOut => 24,
            Rule::RegionOut => 25,
            Rule::PacketType => 26,
            Rule::Overlap => 27,
            Rule::BigTiff => 28,
            Rule::DirectoryLong => 29,
            Rule::Utf16 => 40,
            Rule::NotUtf8 => 41,
            Rule::BadChar => 42,
            Rule::Doctype => 43,
            Rule::BadReference => 44,
            Rule::BadTag => 45,
            Rule::BadComment => 46,
            Rule::BadInstruction => 47,
            Rule::Encoding => 48,
            Rule::BadCdata => 49,
            Rule::OutsideRoot => 50,
            Rule::Mismatch => 51,
            Rule::BadNamespace => 52,
            Rule::UnboundPrefix => 53,
            Rule::TwiceAttribute => 54,
            Rule::TooDeep => 55,
            Rule::Unfinished => 56,
            Rule::NoRdf => 60,
            Rule::NotDescription => 61,
            Rule::AboutDiffers => 62,
            Rule::NoNamespace => 63,
            Rule::XmlName => 64,
            Rule::RdfName => 65,
            Rule::RefusedAttribute => 66,
            Rule::BadParseType => 67,
            Rule::Mixed => 68,
            Rule::ManyNodes => 69,
            Rule::BadContainer => 70,
            Rule::BadItem => 71,
            Rule::TwiceValue => 72,
            Rule::Twice => 73,
            Rule::TreeDeep => 74,
            Rule::ScriptLimit => 78,
            Rule::ScriptUtf8 => 79,
            Rule::BadLine => 80,
            Rule::BadPath => 81,
            Rule::UnknownPrefix => 82,
            Rule::Reserved => 83,
            Rule::BadText => 84,
            Rule::BadLanguageTag => 85,
            Rule::EditDeep => 86,
            Rule::NoSuchPlace => 87,
            Rule::WrongShape => 88,
            Rule::OutOfArray => 89,
            Rule::SegmentLimit => 90,
            Rule::TiffLimit => 91,
            Rule::AfterMultiPicture => 92,
            Rule::NeedsRelocation => 93,
            Rule::OutLimit => 94,
            Rule::ResourceOut => 100,
            Rule::BadDataset => 101,
            Rule::DatasetOut => 102,
            Rule::DatasetLong => 103,
            Rule::ExifHeader => 104,
            Rule::ExifDirectory => 105,
            Rule::ExifValue => 106,
            Rule::BlockLimit => 107,
            Rule::RiffOut => 110,
            Rule::NoVp8x => 111,
            Rule::RiffLimit => 112,
            Rule::PsdOut => 120,
            Rule::PsdLimit => 121,
            Rule::NotSynced => 130,
            Rule::ExifLimit => 131,
            Rule::ResourceLimit => 132,
        }
    }

    /// The name that is printed.
    pub fn name(&self) -> &'static str
        ensures { result.now ≡ name_of self.now }
    {
        match self {
            Rule::NotKnown => "NotKnown",
            Rule::FileLimit => "FileLimit",
            Rule::NoFile => "NoFile",
            Rule::NotBuilt => "NotBuilt",
            Rule::BadMarker => "BadMarker",
            Rule::BadLength => "BadLength",
            Rule::Truncated => "Truncated",
            Rule::NoTail => "NoTail",
            Rule::TwoPackets => "TwoPackets",
            Rule::Gap => "Gap",
            Rule::XmpLimit => "XmpLimit",
            Rule::ShortHeader => "ShortHeader",
            Rule::DirectoryOut => "DirectoryOut",
            Rule::DirectoryTwice => "DirectoryTwice",
            Rule::TooManyDirectories => "TooManyDirectories",
            Rule::ValueOut => "ValueOut",
            Rule::RegionOut => "RegionOut",
            Rule::PacketType => "PacketType",
            Rule::Overlap => "Overlap",
            Rule::BigTiff => "BigTiff",
            Rule::DirectoryLong => "DirectoryLong",
            Rule::Utf16 => "Utf16",
            Rule::NotUtf8 => "NotUtf8",
            Rule::BadChar => "BadChar",
            Rule::Doctype => "Doctype",
            Rule::BadReference => "BadReference",
            Rule::BadTag => "BadTag",
            Rule::BadComment => "BadComment",
            Rule::BadInstruction => "BadInstruction",
            Rule::Encoding => "Encoding",
            Rule::BadCdata => "BadCdata",
            Rule::OutsideRoot => "OutsideRoot",
            Rule::Mismatch => "Mismatch",
            Rule::BadNamespace => "BadNamespace",
            Rule::UnboundPrefix => "UnboundPrefix",
            Rule::TwiceAttribute => "TwiceAttribute",
            Rule::TooDeep => "TooDeep",
            Rule::Unfinished => "Unfinished",
            Rule::NoRdf => "NoRdf",
            Rule::NotDescription => "NotDescription",
            Rule::AboutDiffers => "AboutDiffers",
            Rule::NoNamespace => "NoNamespace",
            Rule::XmlName => "XmlName",
            Rule::RdfName => "RdfName",
            Rule::RefusedAttribute => "RefusedAttribute",
            Rule::BadParseType => "BadParseType",
            Rule::Mixed => "Mixed",
            Rule::ManyNodes => "ManyNodes",
            Rule::BadContainer => "BadContainer",
            Rule::BadItem => "BadItem",
            Rule::TwiceValue => "TwiceValue",
            Rule::Twice => "Twice",
            Rule::TreeDeep => "TreeDeep",
            Rule::ScriptLimit => "ScriptLimit",
            Rule::ScriptUtf8 => "ScriptUtf8",
            Rule::BadLine => "BadLine",
            Rule::BadPath => "BadPath",
            Rule::UnknownPrefix => "UnknownPrefix",
            Rule::Reserved => "Reserved",
            Rule::BadText => "BadText",
            Rule::BadLanguageTag => "BadTag",
            Rule::EditDeep => "EditDeep",
            Rule::NoSuchPlace => "NoSuchPlace",
            Rule::WrongShape => "WrongShape",
            Rule::OutOfArray => "OutOfArray",
            Rule::SegmentLimit => "SegmentLimit",
            Rule::TiffLimit => "TiffLimit",
            Rule::AfterMultiPicture => "AfterMultiPicture",
            Rule::NeedsRelocation => "NeedsRelocation",
            Rule::OutLimit => "OutLimit",
            Rule::ResourceOut => "ResourceOut",
            Rule::BadDataset => "BadDataset",
            Rule::DatasetOut => "DatasetOut",
            Rule::DatasetLong => "DatasetLong",
            Rule::ExifHeader => "ExifHeader",
            Rule::ExifDirectory => "ExifDirectory",
            Rule::ExifValue => "ExifValue",
            Rule::BlockLimit => "BlockLimit",
            Rule::RiffOut => "RiffOut",
            Rule::NoVp8x => "NoVp8x",
            Rule::RiffLimit => "RiffLimit",
            Rule::PsdOut => "PsdOut",
            Rule::PsdLimit => "PsdLimit",
            Rule::NotSynced => "NotSynced",
            Rule::ExifLimit => "ExifLimit",
            Rule::ResourceLimit => "ResourceLimit",
        }
    }
}
