//! The properties that Exif and IPTC tell of too.
ghost use Rattle.std.specs.Prelude.{◌≡◌};
ghost use Rattle.mwg_rules.specs.Properties.{form_of, local_of, name_of, number_of, shown_name, space_of};

use xmp_values::{Name, Text};

/// How the value of a property is written (ISO 16684-1, 8.2).
#[derive(Clone, Copy, Debug, PartialEq, Eq)]
pub enum Form {
    Text,
    Date,
    Bag,
    Seq,
    /// Alternatives by language, of which one is the default.
    Language,
}

/// A property that stands in Exif or IPTC too.
#[derive(Clone, Copy, Debug, PartialEq, Eq)]
pub enum Property {
    Description,
    Rights,
    Creator,
    Subject,
    DateCreated,
    CreateDate,
    ModifyDate,
    City,
    State,
    Country,
    CountryCode,
    Location,
}

/// All of them, in the order in which `exif_fields` and `irb_iptc` list their values.
pub const PROPERTIES: [Property; 12] = [
    Property::Description,
    Property::Rights,
    Property::Creator,
    Property::Subject,
    Property::DateCreated,
    Property::CreateDate,
    Property::ModifyDate,
    Property::City,
    Property::State,
    Property::Country,
    Property::CountryCode,
    Property::Location,
];

impl Property {
    /// The place in that order, counted from 0.
    pub fn number(self) -> usize
        ensures { result ≡ number_of self }
    {
        match self {
            Property::Description => 0,
            Property::Rights => 1,
            Property::Creator => 2,
            Property::Subject => 3,
            Property::DateCreated => 4,
            Property::CreateDate => 5,
            Property::ModifyDate => 6,
            Property::City => 7,
            Property::State => 8,
            Property::Country => 9,
            Property::CountryCode => 10,
            Property::Location => 11,
        }
    }

    /// How its value is written.
    pub fn form(self) -> Form
        ensures { result ≡ form_of self }
    {
        match self {
            Property::Description | Property::Rights => Form::Language,
            Property::Creator => Form::Seq,
            Property::Subject => Form::Bag,
            Property::DateCreated | Property::CreateDate | Property::ModifyDate => Form::Date,
            _ => Form::Text,
        }
    }

    /// Its name.
    pub fn name(self) -> Name<'static>
        ensures { result ≡ name_of self }
    {
        Name {
            space: Text::raw(self.space()),
            local: Text::raw(self.local()),
        }
    }

    /// Its namespace.
    #[tactic(auto, unfolding(crate::specs::Properties::space_of))]
    fn space(self) -> &'static [u8]
        ensures { result.now ≡ space_of self }
    {
        match self {
            Property::Description | Property::Rights | Property::Creator | Property::Subject => {
                b"http://purl.org/dc/elements/1.1/"
            }
            Property::CreateDate | Property::ModifyDate => b"http://ns.adobe.com/xap/1.0/",
            Property::CountryCode | Property::Location => {
                b"http://iptc.org/std/Iptc4xmpCore/1.0/xmlns/"
            }
            _ => b"http://ns.adobe.com/photoshop/1.0/",
        }
    }

    /// Its local part.
    #[tactic(auto, unfolding(crate::specs::Properties::local_of))]
    fn local(self) -> &'static [u8]
        ensures { result.now ≡ local_of self }
    {
        match self {
            Property::Description => b"description",
            Property::Rights => b"rights",
            Property::Creator => b"creator",
            Property::Subject => b"subject",
            Property::DateCreated => b"DateCreated",
            Property::CreateDate => b"CreateDate",
            Property::ModifyDate => b"ModifyDate",
            Property::City => b"City",
            Property::State => b"State",
            Property::Country => b"Country",
            Property::CountryCode => b"CountryCode",
            Property::Location => b"Location",
        }
    }

    /// Its name with the known prefix of its namespace, as it is shown.
    #[tactic(auto, unfolding(crate::specs::Properties::shown_name))]
    pub fn shown_name(self) -> &'static str
        ensures { result.now ≡ shown_name self }
    {
        match self {
            Property::Description => "dc:description",
            Property::Rights => "dc:rights",
            Property::Creator => "dc:creator",
            Property::Subject => "dc:subject",
            Property::DateCreated => "photoshop:DateCreated",
            Property::CreateDate => "xmp:CreateDate",
            Property::ModifyDate => "xmp:ModifyDate",
            Property::City => "photoshop:City",
            Property::State => "photoshop:State",
            Property::Country => "photoshop:Country",
            Property::CountryCode => "Iptc4xmpCore:CountryCode",
            Property::Location => "Iptc4xmpCore:Location",
        }
    }
}
