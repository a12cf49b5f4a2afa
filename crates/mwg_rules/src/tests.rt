//! Photographs whose sources differ, by their trees and lines.
use crate::choices::{Choice, Choices};
use crate::properties::Property;
use crate::samples::Held::{List, Simple};
use crate::samples::{
    Beside, DATE_CREATED, FORMAT, PLAIN, SUBJECT, Sample, Stored, choices, tree_of,
};
use crate::{reconcile, stale};
use std::process::Abort;
use xmp_tree::Kind::{Bag, Seq};
use xmp_tree::{Tree, equal};

/// Keywords `cat`, `sea`, `cat`.
const KEYWORDS: &[u8] = b"\x1c\x02\x19\0\x03cat\x1c\x02\x19\0\x03sea\x1c\x02\x19\0\x03cat";
/// The keyword `dog`.
const DOG: &[u8] = b"\x1c\x02\x19\0\x03dog";

const DATE: &str = "2021:03:04 05:06:07";

/// A photograph's sources, its properties before and after, and its stale lines.
#[derive(Clone, Copy)]
struct Row {
    beside: Beside,
    before: &'static [Sample],
    after: &'static [Sample],
    lines: &'static str,
}

const CREATED: Sample = (DATE_CREATED, Simple("2021-03-04T05:06:07+01:00"), PLAIN);

const CREATED_UTC: Sample = (DATE_CREATED, Simple("2021-03-04T05:06:07Z"), PLAIN);

const CREATED_EAST: Sample = (DATE_CREATED, Simple("2021-03-04T05:06:07+02:00"), PLAIN);

const DOG_ALONE: Sample = (SUBJECT, List(Bag, &["dog"]), PLAIN);

const CAT_SEA: Sample = (SUBJECT, List(Bag, &["cat", "sea"]), PLAIN);

const JPEG: Sample = (FORMAT, Simple("image/jpeg"), PLAIN);

const ROWS: [Row; 8] = [
    Row {
        beside: Beside {
            date: DATE,
            offset: "",
            block: KEYWORDS,
            stored: Stored::Zero,
        },
        before: &[CREATED, DOG_ALONE],
        after: &[CREATED, CAT_SEA],
        lines: "stale dc:subject iptc\n",
    },
    // The stored digest is the block's, and there is no Exif.
    Row {
        beside: Beside {
            date: "",
            offset: "",
            block: KEYWORDS,
            stored: Stored::Same,
        },
        before: &[CREATED, DOG_ALONE],
        after: &[CREATED, DOG_ALONE],
        lines: "",
    },
    // A sidecar has neither.
    Row {
        beside: Beside {
            date: "",
            offset: "",
            block: b"",
            stored: Stored::Nothing,
        },
        before: &[JPEG],
        after: &[JPEG],
        lines: "",
    },
    // The digest differs, and the block says what the tree says.
    Row {
        beside: Beside {
            date: "",
            offset: "",
            block: DOG,
            stored: Stored::Zero,
        },
        before: &[DOG_ALONE],
        after: &[DOG_ALONE],
        lines: "",
    },
    Row {
        beside: Beside {
            date: DATE,
            offset: "+02:00",
            block: KEYWORDS,
            stored: Stored::Zero,
        },
        before: &[CREATED, DOG_ALONE],
        after: &[CREATED_EAST, CAT_SEA],
        lines: "stale dc:subject iptc\nstale photoshop:DateCreated exif\n",
    },
    Row {
        beside: Beside {
            date: DATE,
            offset: "+01:00",
            block: KEYWORDS,
            stored: Stored::Zero,
        },
        before: &[CREATED, DOG_ALONE],
        after: &[CREATED, CAT_SEA],
        lines: "stale dc:subject iptc\n",
    },
    Row {
        beside: Beside {
            date: DATE,
            offset: "+00:00",
            block: KEYWORDS,
            stored: Stored::Zero,
        },
        before: &[CREATED_UTC, CAT_SEA],
        after: &[CREATED_UTC, CAT_SEA],
        lines: "",
    },
    Row {
        beside: Beside {
            date: DATE,
            offset: "      ",
            block: KEYWORDS,
            stored: Stored::Zero,
        },
        before: &[CREATED, DOG_ALONE],
        after: &[CREATED, CAT_SEA],
        lines: "stale dc:subject iptc\n",
    },
];

/// Whether these are the stale lines of a tree.
fn has_lines(
    rt: &(impl Abort + AllocGlobal),
    beside: &Beside,
    tree: &Tree<'_>,
    lines: &str,
) -> bool {
    let chosen = choices(rt, beside, tree);
    let text = stale(rt.alloc(), tree, &chosen).expect(rt, "memory");
    text.as_slice() == lines.as_bytes()
}

/// The tree that another one is reconciled to.
fn made<'p>(rt: &(impl Abort + AllocGlobal), beside: &Beside, tree: Tree<'p>) -> Tree<'p> {
    let chosen = choices(rt, beside, &tree);
    reconcile(tree, &chosen).expect(rt, "memory")
}

/// Whether a reconciled tree isn't changed again, and has no stale line.
fn is_settled(
    rt: &(impl Abort + AllocGlobal),
    beside: &Beside,
    tree: Tree<'_>,
    wanted: &Tree<'_>,
) -> bool {
    has_lines(rt, beside, &tree, "") && equal(&made(rt, beside, tree), wanted)
}

/// The sources after the stored digest was renewed.
fn renewed(beside: &Beside) -> Beside {
    Beside {
        stored: Stored::Same,
        ..*beside
    }
}

#[test]
fn what_differs_is_stale_once(rt: HostRuntime) {
    for row in ROWS {
        let tree = tree_of(&rt, row.before);
        assert!(rt;
            has_lines(&rt, &row.beside, &tree, row.lines),
            "{}",
            row.lines
        );
        let wanted = tree_of(&rt, row.after);
        let first = made(&rt, &row.beside, tree);
        assert!(rt; equal(&first, &wanted), "{}", row.lines);
        assert!(rt;
            is_settled(&rt, &row.beside, first, &wanted),
            "{}",
            row.lines
        );
    }
}

#[test]
fn a_renewed_digest_keeps_what_was_put(rt: HostRuntime) {
    for row in ROWS {
        let wanted = tree_of(&rt, row.after);
        let first = made(&rt, &row.beside, tree_of(&rt, row.before));
        let beside = renewed(&row.beside);
        assert!(rt; is_settled(&rt, &beside, first, &wanted), "{}", row.lines);
    }
}

/// The source that is chosen for DateCreated, by a letter.
fn source(choices: &Choices) -> u8 {
    match choices.get(Property::DateCreated) {
        Some(Choice::Exif(_)) => b'e',
        Some(Choice::Xmp) => b'x',
        Some(Choice::Iptc(_)) => b'i',
        None => b'-',
    }
}

/// Date created 2020-01-02.
const DAY: &[u8] = b"\x1c\x02\x37\0\x0820200102";

/// Exif's date, a block, the stored digest, properties, and the source that is chosen. A blank text
/// and an array without items say nothing.
const CHOSEN: [(&str, &[u8], Stored, &[Sample], u8); 11] = [
    (DATE, DAY, Stored::Zero, &[CREATED], b'e'),
    (DATE, DOG, Stored::Nothing, &[], b'e'),
    ("", DAY, Stored::Zero, &[CREATED], b'i'),
    ("", DAY, Stored::Same, &[CREATED], b'x'),
    ("", DAY, Stored::Nothing, &[CREATED], b'x'),
    ("", DOG, Stored::Zero, &[CREATED], b'x'),
    ("", DOG, Stored::Zero, &[], b'-'),
    ("", DAY, Stored::Same, &[], b'i'),
    (
        "",
        DAY,
        Stored::Nothing,
        &[(DATE_CREATED, Simple(" "), PLAIN)],
        b'i',
    ),
    (
        "",
        DAY,
        Stored::Nothing,
        &[(DATE_CREATED, List(Seq, &[]), PLAIN)],
        b'i',
    ),
    (
        "",
        DOG,
        Stored::Nothing,
        &[(DATE_CREATED, Simple(" "), PLAIN)],
        b'-',
    ),
];

#[test]
fn the_first_row_that_holds_decides(rt: HostRuntime) {
    for (date, block, stored, properties, wanted) in CHOSEN {
        let beside = Beside {
            date,
            offset: "",
            block,
            stored,
        };
        let chosen = choices(&rt, &beside, &tree_of(&rt, properties));
        assert_eq!(rt; source(&chosen), wanted);
    }
}
