//! A tree whose text is too long for one packet, in two texts (XMP Specification Part 3, 1.1.3.1):
//! the front, which is the note and the first properties, and the rest.
ghost use Rattle.std.specs.Prelude.{◌≡◌, ◌+◌, ◌-◌, ◌^◌, ◌<◌, ◌≤◌, ◌++◌, [], ◌∷◌, codes, length, take, min, slice_range, MatchResult, IsTrue, ◌↔◌};
ghost use Rattle.xmp_write.specs.Text.{declared_text, member_text};
ghost use Rattle.xmp_write.specs.Splits.{Tells, Stops, IsFront, FrontStops, base_len, all_spaces, given_to};

use crate::forms::Form;
use crate::placing::{put, put_attribute, rdf};
use crate::prefixes::{Growing, Prefixes};
use crate::uses::declared_spaces;
use crate::values::put_member;
use crate::writing::{measure, put_declarations, put_note_line};
use std::alloc::Global;
use xmp_tree::{Member, Tree};
use xmp_values::{HintMap, Hints, Memory};

/// How a tree is written as two texts.
#[derive(Clone, Copy, Debug, PartialEq, Eq)]
pub struct Split {
    /// How many properties stand in the front.
    pub count: usize,
    /// The length of the front's text, in bytes, whatever the note's digits are.
    pub front: u64,
    /// The length of the rest's text, in bytes, or the greatest u64 where it is longer.
    pub rest: u64,
}

/// Why a tree isn't split.
#[derive(Clone, Copy, Debug, PartialEq, Eq, Drop)]
pub enum SplitStop {
    /// The packet of the note without a property needs so many bytes, which is over the room.
    TooLong(u64),
    Memory,
}

impl From<Memory> for SplitStop {
    ghost use Rattle.xmp_write.specs.declared.splits.SplitStop.TheVariants as stop;

    ghost from_gives = { λ _ e. e ≡ stop.Memory };

    fn from(_memory: Memory) -> SplitStop {
        SplitStop::Memory
    }
}

/// The front of the first properties, and the length of its text.
#[derive(Clone, Copy)]
struct Front {
    count: usize,
    len: u64,
}

/// Whether a packet of a text of this length fits.
fn fits(len: u64, room: u64) -> bool
    requires { room < 2 ^ 64 - 1 }
    ensures { IsTrue result ↔ (73 + len ≤ room) }
{
    len.saturating_add(73) <= room
}

/// The length of the front without a property, where so many namespaces are used.
fn front_start(tree: &Tree<'_>, prefixes: &Prefixes<'_>, used: usize) -> u64
    requires { used ≤ length prefixes.now }
    ensures { result ≡ min (base_len prefixes.now tree.now + length (declared_text (take used prefixes.now))) (2 ^ 64 - 1) }
{
    let mut none = [0; 0];
    let len = put_attribute(&mut none, 164, rdf(b"about"), tree.about.bytes());
    let len = put_note_line(
        &mut none,
        len,
        prefixes,
        b"00000000000000000000000000000000",
    );
    put_declarations(&mut none, len, &prefixes.as_slice()[..used])
}

/// The length with one property more, with which the namespaces from one place to another are used
/// first.
fn front_more(len: u64, prefixes: &Prefixes<'_>, member: &Member<'_>, from: usize, to: usize) -> u64
    requires order { from ≤ to }
    requires within { to ≤ length prefixes.now }
    ensures { result ≡ min (len + (length (member_text prefixes.now member.now) + 1 + length (declared_text (slice_range prefixes.now from to)))) (2 ^ 64 - 1) }
{
    let mut none = [0; 0];
    let len = put_member(&mut none, len, prefixes, member);
    let len = put(&mut none, len, b"\n");
    put_declarations(&mut none, len, &prefixes.as_slice()[from..to])
}

/// The longest front that fits.
fn front_within(
    alloc: Global,
    tree: &Tree<'_>,
    hints: &HintMap<'_>,
    room: u64,
) -> Result<Front, SplitStop>
    requires { room < 2 ^ 64 - 1 }
    ensures { MatchResult result (IsFront (given_to hints.now (all_spaces tree.now.props)) tree.now room) (FrontStops (given_to hints.now (all_spaces tree.now.props)) tree.now room) }
{
    let props = tree.props.as_slice();
    let mut grown = Growing::note(alloc, hints)?;
    let mut len = front_start(tree, &grown.prefixes, grown.prefixes.len());
    if !fits(len, room) {
        return Err(SplitStop::TooLong(len.saturating_add(73)));
    }
    for count in 0..props.len() {
        let member = &props[count];
        let used = grown.prefixes.len();
        grown = grown.with_member(alloc, hints, member)?;
        let next = front_more(len, &grown.prefixes, member, used, grown.prefixes.len());
        if !fits(next, room) {
            return Ok(Front { count, len });
        }
        len = next;
    }
    Ok(Front {
        count: props.len(),
        len,
    })
}

impl Split {
    /// Splits a tree: as many properties stand in the front as fit, so that its packet needs no more
    /// bytes than there is room, and the others in the rest.
    pub fn of(alloc: Global, tree: &Tree<'_>, hints: &Hints, room: u64) -> Result<Split, SplitStop>
        requires { room < 2 ^ 64 - 1 }
        ensures { MatchResult result (Tells tree.now hints.now room) (Stops tree.now hints.now room) }
    {
        let map = HintMap::new(alloc, hints.as_slice())?;
        let front = match front_within(alloc, tree, &map, room) {
            Ok(front) => front,
            Err(stop) => return Err(stop),
        };
        let form = Form {
            first: front.count,
            count: tree.props.len() - front.count,
            note: None,
        };
        let spaces = declared_spaces(alloc, tree, &form)?;
        let prefixes = Prefixes::given(alloc, &map, spaces)?;
        Ok(Split {
            count: front.count,
            front: front.len,
            rest: measure(tree, &prefixes, &form),
        })
    }
}
