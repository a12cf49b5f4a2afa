//! Files of the worked examples.

/// A sidecar: the tree with an empty about and `dc:format` = `image/jpeg`, without a packet
/// wrapper.
pub const PHOTO: &str = "<x:xmpmeta xmlns:x=\"adobe:ns:meta/\">
<rdf:RDF xmlns:rdf=\"http://www.w3.org/1999/02/22-rdf-syntax-ns#\">
<rdf:Description rdf:about=\"\" xmlns:dc=\"http://purl.org/dc/elements/1.1/\">
<dc:format>image/jpeg</dc:format>
</rdf:Description>
</rdf:RDF>
</x:xmpmeta>
";

/// A value that is an attribute, with a line feed as such and one as a reference.
pub const BLANKS: &str =
    "<rdf:RDF xmlns:rdf=\"http://www.w3.org/1999/02/22-rdf-syntax-ns#\"><rdf:Description rdf:about=\"\" xmlns:dc=\"http://purl.org/dc/elements/1.1/\" dc:source=\"a
b&#xA;c\"></rdf:Description></rdf:RDF>";

/// Elements without text or children, which have attributes: `rdf:value` makes a text,
/// `rdf:resource` a URI and `xml:lang` alone an empty text; others alone make a structure.
pub const QUALIFIED: &str =
    "<rdf:RDF xmlns:rdf=\"http://www.w3.org/1999/02/22-rdf-syntax-ns#\"><rdf:Description rdf:about=\"\" xmlns:dc=\"http://purl.org/dc/elements/1.1/\" xmlns:xmp=\"http://ns.adobe.com/xap/1.0/\"><dc:format rdf:value=\"v\" xmp:Label=\"w\"/><dc:source rdf:resource=\"u\" xmp:Label=\"w\"/><dc:relation xml:lang=\"en\"/><dc:coverage xmp:Label=\"w\"/></rdf:Description></rdf:RDF>";

/// The attributes beside a text or a URI are qualifiers, those of a structure its fields.
pub const QUALIFIED_LINES: &str = "about 
dc:format text v
dc:format/?xmp:Label text w
dc:source uri u
dc:source/?xmp:Label text w
dc:relation text 
dc:relation/?xml:lang text en
dc:coverage struct 1
dc:coverage/xmp:Label text w
";

/// A node that has a type, in the place of `rdf:Description`.
pub const TYPED: &str =
    "<rdf:RDF xmlns:rdf=\"http://www.w3.org/1999/02/22-rdf-syntax-ns#\"><rdf:Description rdf:about=\"\" xmlns:dc=\"http://purl.org/dc/elements/1.1/\" xmlns:xmp=\"http://ns.adobe.com/xap/1.0/\"><dc:creator><xmp:Person dc:format=\"v\"/></dc:creator></rdf:Description></rdf:RDF>";

/// The type is a qualifier, whose URI is the namespace and the local part of the node.
pub const TYPED_LINES: &str = "about 
dc:creator struct 1
dc:creator/?rdf:type uri http://ns.adobe.com/xap/1.0/Person
dc:creator/dc:format text v
";

/// A usual packet: in a wrapper, with properties as attributes and as elements, a list of
/// structures and alternatives by language.
pub const USUAL: &str = "<?xpacket begin=\"\u{FEFF}\" id=\"W5M0MpCehiHzreSzNTczkc9d\"?>
<x:xmpmeta xmlns:x=\"adobe:ns:meta/\" x:xmptk=\"Example 1.0\">
 <rdf:RDF xmlns:rdf=\"http://www.w3.org/1999/02/22-rdf-syntax-ns#\">
  <rdf:Description rdf:about=\"\"
    xmlns:xmp=\"http://ns.adobe.com/xap/1.0/\"
    xmlns:dc=\"http://purl.org/dc/elements/1.1/\"
    xmlns:xmpMM=\"http://ns.adobe.com/xap/1.0/mm/\"
    xmlns:stEvt=\"http://ns.adobe.com/xap/1.0/sType/ResourceEvent#\"
   xmp:CreateDate=\"2021-03-04T05:06:07+01:00\"
   dc:format=\"image/jpeg\">
   <xmpMM:History>
    <rdf:Seq>
     <rdf:li stEvt:action=\"saved\" stEvt:changed=\"/metadata\"/>
    </rdf:Seq>
   </xmpMM:History>
   <dc:title>
    <rdf:Alt>
     <rdf:li xml:lang=\"en\">Sea</rdf:li>
     <rdf:li xml:lang=\"de\">Meer</rdf:li>
     <rdf:li xml:lang=\"fr\">Mer</rdf:li>
    </rdf:Alt>
   </dc:title>
  </rdf:Description>
 </rdf:RDF>
</x:xmpmeta>
<?xpacket end=\"w\"?>";

/// The properties stand in the order of the text, those that are attributes first.
pub const USUAL_LINES: &str = "about 
xmp:CreateDate text 2021-03-04T05:06:07+01:00
dc:format text image/jpeg
xmpMM:History seq 1
xmpMM:History[1] struct 2
xmpMM:History[1]/stEvt:action text saved
xmpMM:History[1]/stEvt:changed text /metadata
dc:title alt 3
dc:title[1] text Sea
dc:title[1]/?xml:lang text en
dc:title[2] text Meer
dc:title[2]/?xml:lang text de
dc:title[3] text Mer
dc:title[3]/?xml:lang text fr
";

/// A property that stands twice.
pub const TWICE: &str =
    "<rdf:RDF xmlns:rdf=\"http://www.w3.org/1999/02/22-rdf-syntax-ns#\"><rdf:Description xmlns:dc=\"http://purl.org/dc/elements/1.1/\" dc:format=\"a\"><dc:format>b</dc:format></rdf:Description></rdf:RDF>";

/// A top that is no Description.
pub const NO_DESCRIPTION: &str =
    "<rdf:RDF xmlns:rdf=\"http://www.w3.org/1999/02/22-rdf-syntax-ns#\"><rdf:Seq/></rdf:RDF>";

/// A tree without properties.
pub const EMPTY: &str = "<rdf:RDF xmlns:rdf=\"http://www.w3.org/1999/02/22-rdf-syntax-ns#\"/>";

/// A sidecar that zero bytes follow, which are no part of its text.
pub const PADDED: &str =
    "<rdf:RDF xmlns:rdf=\"http://www.w3.org/1999/02/22-rdf-syntax-ns#\"><rdf:Description xmlns:dc=\"http://purl.org/dc/elements/1.1/\" dc:format=\"a\"/></rdf:RDF>\0\0";

/// One namespace, which references spell, for three properties: two declarations bind it, by two
/// spellings, and the first one's prefix is that of all.
pub const REFERENCED: &str =
    "<rdf:RDF xmlns:rdf=\"http://www.w3.org/1999/02/22-rdf-syntax-ns#\"><rdf:Description xmlns:a=\"urn:x&amp;y\"><a:one>1</a:one><a:two>2</a:two><b:three xmlns:b=\"urn:x&#38;y\">3</b:three></rdf:Description></rdf:RDF>";

/// A line for each property, with the one prefix.
pub const REFERENCED_LINES: &str = "about 
a:one text 1
a:two text 2
a:three text 3
";
