//! What a value of each form becomes.
use crate::reconcile;
use crate::samples::Held::{Languages, List, Simple};
use crate::samples::{
    Beside, CITY, CREATOR, DATE_CREATED, DESCRIPTION, LABELLED, PLAIN, SOURCE, SUBJECT, Sample,
    Stored, choices, tree_of,
};
use std::process::Abort;
use xmp_tree::Kind::{Bag, Seq};
use xmp_tree::equal;

/// City `Oslo`.
const OSLO: &[u8] = b"\x1c\x02\x5a\0\x04Oslo";
/// Keywords `cat` and `sea`.
const KEYWORDS: &[u8] = b"\x1c\x02\x19\0\x03cat\x1c\x02\x19\0\x03sea";
/// By-line `Ann`.
const AUTHOR: &[u8] = b"\x1c\x02\x50\0\x03Ann";
/// Caption `Sea`.
const SEA: &[u8] = b"\x1c\x02\x78\0\x03Sea";
/// Date created 2021-03-04.
const DAY: &[u8] = b"\x1c\x02\x37\0\x0820210304";
/// Date created 2021-03-04, 05:06:07 an hour before UTC.
const HOUR: &[u8] = b"\x1c\x02\x37\0\x0820210304\x1c\x02\x3c\0\x0b050607+0100";

/// A block, and properties before and after.
type Row = (&'static [u8], &'static [Sample], &'static [Sample]);

/// A property that isn't one of the twelve.
const OTHER: Sample = (SOURCE, Simple("x"), LABELLED);

/// What is replaced keeps its place and loses its qualifiers, and what is new comes last.
const TEXTS: [Row; 6] = [
    (OSLO, &[OTHER], &[OTHER, (CITY, Simple("Oslo"), PLAIN)]),
    (
        OSLO,
        &[(CITY, Simple("Oslo"), LABELLED), OTHER],
        &[(CITY, Simple("Oslo"), LABELLED), OTHER],
    ),
    (
        OSLO,
        &[(CITY, Simple("Rome"), LABELLED), OTHER],
        &[(CITY, Simple("Oslo"), PLAIN), OTHER],
    ),
    // Blank, and without items.
    (
        OSLO,
        &[(CITY, Simple(" "), PLAIN)],
        &[(CITY, Simple("Oslo"), PLAIN)],
    ),
    (
        OSLO,
        &[(CITY, List(Seq, &[]), LABELLED), OTHER],
        &[(CITY, Simple("Oslo"), PLAIN), OTHER],
    ),
    (
        OSLO,
        &[(CITY, List(Bag, &["Oslo"]), PLAIN)],
        &[(CITY, Simple("Oslo"), PLAIN)],
    ),
];

/// The keywords as they are put.
const CAT_SEA: Sample = (SUBJECT, List(Bag, &["cat", "sea"]), PLAIN);

/// Lists: the order, the number and the kind count, qualifiers don't.
const LISTS: [Row; 11] = [
    (KEYWORDS, &[], &[CAT_SEA]),
    (
        KEYWORDS,
        &[(SUBJECT, List(Bag, &["cat", "sea"]), LABELLED)],
        &[(SUBJECT, List(Bag, &["cat", "sea"]), LABELLED)],
    ),
    (
        KEYWORDS,
        &[(SUBJECT, List(Bag, &["sea", "cat"]), LABELLED), OTHER],
        &[CAT_SEA, OTHER],
    ),
    (
        KEYWORDS,
        &[(SUBJECT, List(Bag, &["cat", "sea", "dog"]), PLAIN)],
        &[CAT_SEA],
    ),
    (
        KEYWORDS,
        &[(SUBJECT, List(Bag, &["cat"]), PLAIN)],
        &[CAT_SEA],
    ),
    (KEYWORDS, &[(SUBJECT, List(Bag, &[]), LABELLED)], &[CAT_SEA]),
    (
        KEYWORDS,
        &[(SUBJECT, List(Seq, &["cat", "sea"]), PLAIN)],
        &[CAT_SEA],
    ),
    (KEYWORDS, &[(SUBJECT, Simple("cat"), PLAIN)], &[CAT_SEA]),
    (KEYWORDS, &[(SUBJECT, Simple("\t"), PLAIN)], &[CAT_SEA]),
    (
        AUTHOR,
        &[(CREATOR, List(Bag, &["Ann"]), PLAIN)],
        &[(CREATOR, List(Seq, &["Ann"]), PLAIN)],
    ),
    (
        AUTHOR,
        &[(CREATOR, List(Seq, &["Ann"]), LABELLED)],
        &[(CREATOR, List(Seq, &["Ann"]), LABELLED)],
    ),
];

/// The caption as it is put.
const ALONE: Sample = (
    DESCRIPTION,
    Languages(&[("x-default", "Sea", PLAIN)]),
    PLAIN,
);

/// Languages: the first text of the default language counts.
const LANGUAGES: [Row; 8] = [
    (SEA, &[OTHER], &[OTHER, ALONE]),
    (
        SEA,
        &[(
            DESCRIPTION,
            Languages(&[("en", "Lake", PLAIN), ("X-Default", "Sea", LABELLED)]),
            LABELLED,
        )],
        &[(
            DESCRIPTION,
            Languages(&[("en", "Lake", PLAIN), ("X-Default", "Sea", LABELLED)]),
            LABELLED,
        )],
    ),
    (
        SEA,
        &[(
            DESCRIPTION,
            Languages(&[
                ("en", "Lake", LABELLED),
                ("X-DEFAULT", "Lac", LABELLED),
                ("x-default", "Sea", LABELLED),
            ]),
            LABELLED,
        )],
        &[(
            DESCRIPTION,
            Languages(&[
                ("en", "Lake", LABELLED),
                ("x-default", "Sea", PLAIN),
                ("x-default", "Sea", LABELLED),
            ]),
            LABELLED,
        )],
    ),
    (
        SEA,
        &[(
            DESCRIPTION,
            Languages(&[("en", "Lake", PLAIN), ("de", "See", PLAIN)]),
            PLAIN,
        )],
        &[(
            DESCRIPTION,
            Languages(&[
                ("x-default", "Sea", PLAIN),
                ("en", "Lake", PLAIN),
                ("de", "See", PLAIN),
            ]),
            PLAIN,
        )],
    ),
    // Without items, and blank.
    (SEA, &[(DESCRIPTION, Languages(&[]), PLAIN)], &[ALONE]),
    (SEA, &[(DESCRIPTION, Simple("  "), LABELLED)], &[ALONE]),
    (
        SEA,
        &[(DESCRIPTION, List(Bag, &["Sea"]), LABELLED)],
        &[ALONE],
    ),
    (SEA, &[(DESCRIPTION, Simple("Sea"), LABELLED)], &[ALONE]),
];

/// The day as it is put.
const PUT: Sample = (DATE_CREATED, Simple("2021-03-04"), PLAIN);

/// The day with an hour, as it is put.
const PUT_HOUR: Sample = (DATE_CREATED, Simple("2021-03-04T05:06:07+01:00"), PLAIN);

/// Dates: one that says more stays, but not with another zone.
const DATES: [Row; 9] = [
    (
        DAY,
        &[(DATE_CREATED, Simple("2021-03-04"), LABELLED)],
        &[(DATE_CREATED, Simple("2021-03-04"), LABELLED)],
    ),
    (
        DAY,
        &[(DATE_CREATED, Simple("2021-03-04T05:06:07Z"), LABELLED)],
        &[(DATE_CREATED, Simple("2021-03-04T05:06:07Z"), LABELLED)],
    ),
    (
        DAY,
        &[(DATE_CREATED, Simple("2021-03-05"), LABELLED)],
        &[PUT],
    ),
    (DAY, &[(DATE_CREATED, Simple("2021"), PLAIN)], &[PUT]),
    (DAY, &[(DATE_CREATED, Simple(""), LABELLED)], &[PUT]),
    (
        DAY,
        &[(DATE_CREATED, List(Seq, &["2021-03-04"]), PLAIN)],
        &[PUT],
    ),
    (
        DAY,
        &[(DATE_CREATED, List(Bag, &[]), LABELLED), OTHER],
        &[PUT, OTHER],
    ),
    // A zone of IPTC replaces a date without one, or with another.
    (
        HOUR,
        &[(DATE_CREATED, Simple("2021-03-04T05:06:07"), LABELLED)],
        &[PUT_HOUR],
    ),
    (
        HOUR,
        &[(DATE_CREATED, Simple("2021-03-04T05:06:07Z"), PLAIN)],
        &[PUT_HOUR],
    ),
];

/// Whether properties become others by a block whose digest isn't the stored one.
fn becomes(
    rt: &(impl Abort + AllocGlobal),
    block: &'static [u8],
    before: &[Sample],
    after: &[Sample],
) -> bool {
    let beside = Beside {
        date: "",
        offset: "",
        block,
        stored: Stored::Zero,
    };
    let tree = tree_of(rt, before);
    let chosen = choices(rt, &beside, &tree);
    let made = reconcile(tree, &chosen).expect(rt, "memory");
    equal(&made, &tree_of(rt, after))
}

/// The number of the first row that isn't so; there is none.
fn first_wrong(rt: &(impl Abort + AllocGlobal), rows: &[Row]) -> Option<usize> {
    rows.iter().position(|(block, before, after)| !becomes(rt, block, before, after))
}

#[test]
fn values_become_the_preferred_ones(rt: HostRuntime) {
    assert_eq!(rt; first_wrong(&rt, &TEXTS), None, "texts");
    assert_eq!(rt; first_wrong(&rt, &LISTS), None, "lists");
    assert_eq!(rt; first_wrong(&rt, &LANGUAGES), None, "languages");
    assert_eq!(rt; first_wrong(&rt, &DATES), None, "dates");
}
