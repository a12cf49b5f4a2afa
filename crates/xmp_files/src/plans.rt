//! What becomes of a file whose tree was edited.
ghost use Rattle.std.specs.Prelude.{◌≡◌, ◌≢◌, ◌+◌, ◌≤◌, ◌<◌, ◌^◌, length, IfOk, None};
ghost use Rattle.xmp_tree.specs.Parts.{Parts};
ghost use Rattle.xmp_write.specs.Prefixes.{prefixes};
ghost use Rattle.xmp_write.specs.WrittenPackets.{least_len, packet};
ghost use Rattle.xmp_files.specs.Plans.{room_of, put_over, told, fits, planned_len, needs_relocation, MayPlan};
ghost use Rattle.xmp_files.specs.Planneds.{plan_of, outcome_of, ExchangeLies, IsNewFile, MoveAnswer, PlanAnswer, new_packet};
ghost use Rattle.xmp_files.specs.Loads.{IsOfSize};
ghost use Rattle.xmp_files.specs.Patching.{new_payload};
ghost use Rattle.std.specs.Option.{option_copied};

use crate::appending::append_packet;
use crate::dividing::with_both;
use crate::faults::{PACKET_LIMIT, over_packet};
use crate::held::Held;
use crate::opening::Opened;
use crate::parts::{NewFile, whole_file};
use crate::relocating::{SEGMENT_LIMIT, with_packet};
use std::alloc::Global;
use std::marker::Model;
use xmp_packets::Packet;
use xmp_tree::{Tree, equal};
use xmp_values::{Bytes, Fault, FaultStop, Hint, Hints, Memory, Part, Rule};
use xmp_write::{Form, Prefixes, measure, packet_into};

/// What becomes of a file.
#[derive(Clone, Copy, Debug, PartialEq, Eq)]
pub enum Outcome {
    /// Its bytes stay.
    Same,
    /// The packet is exchanged for one of its length.
    InPlace,
    /// The packet is put in another place.
    Relocated,
}

/// New bytes, where there are any.
#[derive(Debug, Drop)]
pub enum Exchange {
    Nothing,
    /// These bytes from this place of the file on, for as many.
    Inside(u64, Bytes),
    /// A new file.
    Anew(NewFile),
}

/// A plan for a file, with all new bytes. Contracts see the plan and the old file's length.
#[derive(Debug, Drop)]
pub struct Planned {
    exchange: Exchange,
    old_len: u64,
}

impl Model for Planned {
    ghost use Rattle.xmp_files.specs.Planneds.{ExchangeLies, PlannedFile, plan_of};

    ghost Value = { PlannedFile };

    ghost view = { λ p. record { plan = plan_of p.exchange; size = p.old_len } };

    ghost invariant = { λ p. ExchangeLies p.old_len p.exchange };
}

impl Planned {
    /// What becomes of the file.
    pub fn outcome(&self) -> Outcome
        ensures { result ≡ outcome_of self.now.plan }
    {
        match self.exchange {
            Exchange::Nothing => Outcome::Same,
            Exchange::Inside(..) => Outcome::InPlace,
            Exchange::Anew(..) => Outcome::Relocated,
        }
    }

    /// The length of the old file.
    pub fn old_len(&self) -> u64
        ensures { result ≡ self.now.size }
    {
        self.old_len
    }

    /// The length of the new file.
    pub fn new_len(&self) -> u64
        ensures { result ≡ planned_len self.now.size self.now.plan }
    {
        match &self.exchange {
            Exchange::Nothing | Exchange::Inside(..) => self.old_len,
            Exchange::Anew(new) => new.len,
        }
    }

    /// The new packet of a plan that exchanges it in its place.
    pub(crate) fn new_payload(&self) -> Option<&[u8]>
        ensures { option_copied result ≡ new_payload self.now.plan }
    {
        match &self.exchange {
            Exchange::Inside(_, bytes) => Some(bytes.as_slice()),
            Exchange::Nothing | Exchange::Anew(..) => None,
        }
    }

    /// The new file of a plan that writes one.
    pub(crate) fn new_file(&self) -> Option<&NewFile>
        ensures { IsNewFile self.now.size self.now.plan (option_copied result) }
    {
        match &self.exchange {
            Exchange::Nothing | Exchange::Inside(..) => None,
            Exchange::Anew(new) => Some(new),
        }
    }

    /// The packet of a plan that writes no new file: the new one, or the old one where it stays.
    pub(crate) fn bytes<'a>(&'a self, held: &'a Held) -> &'a [u8]
        ensures { result.now ≡ new_packet held.now.payload self.now.plan }
    {
        match &self.exchange {
            Exchange::Nothing | Exchange::Anew(_) => held.packet(),
            Exchange::Inside(_, bytes) => bytes.as_slice(),
        }
    }
}

/// The bytes of padding of a packet that is put in another place, so that the next edit fits.
pub const PADDING: u64 = 2048;

/// The bytes of a packet's header and trailer.
pub const WRAPPER: u64 = 73;

/// The least length of a packet of the tree, or the greatest number.
fn least_len(tree: &Tree<'_>, prefixes: &Prefixes<'_>, form: &Form) -> u64
    requires { form.now.first + form.now.count ≤ length tree.now.props }
    ensures { result ≡ told (least_len prefixes.now tree.now form.now) }
{
    measure(tree, prefixes, form).saturating_add(WRAPPER)
}

/// A packet of the tree of this length.
fn packet(
    alloc: Global,
    tree: &Tree<'_>,
    prefixes: &Prefixes<'_>,
    form: &Form,
    len: usize,
) -> Result<Bytes, Memory>
    requires part { form.now.first + form.now.count ≤ length tree.now.props }
    requires room { least_len prefixes.now tree.now form.now ≤ len }
    ensures { IfOk result (λ bytes. bytes ≡ packet prefixes.now tree.now form.now len) }
{
    let mut bytes = Bytes::from_vec(vec![in alloc; 0; len]?);
    packet_into(tree, prefixes, form, bytes.as_mut_slice());
    Ok(bytes)
}

/// Whether a packet of this least length fits the payload.
fn fits(held: &Held, joined: bool, least: u64) -> bool
    ensures { result ≡ fits held.now.payload joined least }
{
    match held.payload() {
        Some(payload) => {
            !joined && Packet::of(payload).writable && least <= payload.len() as u64
        }
        None => false,
    }
}

/// A packet of the tree over the payload.
fn inside(
    alloc: Global,
    held: &Held,
    tree: &Tree<'_>,
    prefixes: &Prefixes<'_>,
    form: &Form,
) -> Result<Exchange, Memory>
    requires part { form.now.first + form.now.count ≤ length tree.now.props }
    requires room { least_len prefixes.now tree.now form.now ≤ room_of held.now.payload }
    ensures { IfOk result (λ exchange. plan_of exchange ≡ put_over held.now.payload (packet prefixes.now tree.now form.now (room_of held.now.payload))) }
{
    let bytes = packet(alloc, tree, prefixes, form, held.payload_len())?;
    Ok(Exchange::Inside(held.payload_place(), bytes))
}

/// The new packet doesn't fit a file that may be changed in its place alone.
fn needs_relocation(least: u64, room: usize) -> Fault
    ensures { result ≡ needs_relocation least room }
{
    Fault {
        x: least,
        y: room as u64,
        ..Fault::at(Rule::NeedsRelocation, Part::Main, 0)
    }
}

/// How many hints and prefixes there are: as many as a number holds, since both lists are in memory.
fn count_of(hints: &[Hint], prefixes: &[Hint]) -> usize
    ensures sum { result ≡ length hints.now + length prefixes.now }
    ensures few { length hints.now < 2 ^ 63 }
{
    hints.len() + prefixes.len()
}

/// What becomes of a file whose tree changes: the new packet stands in the place of the old one where it fits,
/// else the file is written anew.
#[tactic(auto, using(crate::proofs::Placing::placed))]
fn change_of(
    alloc: Global,
    held: &Held,
    joined: bool,
    tree: &Tree<'_>,
    hints: &Hints,
    patch: bool,
) -> Result<Exchange, FaultStop>
    requires lies { IsOfSize held.now.size held.now }
    ensures step { (old : Parts) → MoveAnswer held.now.payload held.now.container held.now.portions joined patch (record { old = old; new = tree.now; hints = hints.now; digest = None }) result }
    // the texts that were written are ones that are read back
    ensures written { IfOk result (λ _. MayPlan tree.now hints.now) }
    ensures lies { IfOk result (ExchangeLies held.now.size) }
{
    let _props = &tree.props;
    let form = Form::whole(tree);
    let prefixes = Prefixes::of(alloc, tree, hints, &form)?;
    let _count = count_of(hints.as_slice(), prefixes.as_slice());
    let least = least_len(tree, &prefixes, &form);
    let padded = least.saturating_add(PADDING);
    if padded > PACKET_LIMIT {
        return Err(FaultStop::Fault(over_packet(padded)));
    }
    if fits(held, joined, least) {
        return Ok(inside(alloc, held, tree, &prefixes, &form)?);
    }
    if patch {
        return Err(FaultStop::Fault(needs_relocation(least, held.payload_len())));
    }
    if let Some(dirs) = held.directories() {
        return append_packet(
            alloc,
            held.size(),
            dirs,
            tree,
            &prefixes,
            &form,
            padded as usize,
        );
    }
    let Some(regions) = held.regions() else {
        let bytes = packet(alloc, tree, &prefixes, &form, padded as usize)?;
        return Ok(Exchange::Anew(whole_file(alloc, bytes)?));
    };
    let size = held.size();
    let portions = held.portions();
    if least > SEGMENT_LIMIT {
        return with_both(alloc, size, regions, portions, tree, hints);
    }
    with_packet(
        alloc, size, regions, portions, tree, &prefixes, &form, least,
    )
}

/// What becomes of a file whose tree is to be `tree`, with all hints of its text. With `patch` the file may be
/// changed inside its packet alone.
///
/// # Errors
/// The first fault of the steps after the edits: XmpLimit of the new text, then NeedsRelocation with `patch`, and of a
/// JPEG file SegmentLimit, XmpLimit of the new extended text and AfterMultiPicture, of a TIFF file TiffLimit, and OutLimit.
#[tactic(auto, using(crate::proofs::Placing::stops_planned))]
pub fn plan(
    alloc: Global,
    held: &Held,
    opened: &Opened<'_>,
    tree: &Tree<'_>,
    hints: &Hints,
    patch: bool,
) -> Result<Planned, FaultStop>
    requires lies { IsOfSize held.now.size held.now }
    ensures step { PlanAnswer held.now opened.now.joined patch (record { old = opened.now.meaning.tree; new = tree.now; hints = hints.now; digest = None }) result }
    // the texts of a tree that changes are ones that are read back
    ensures written { IfOk result (λ _. tree.now ≢ opened.now.meaning.tree → MayPlan tree.now hints.now) }
{
    let old_len = held.size();
    if equal(tree, &opened.meaning.tree) {
        return Ok(Planned {
            exchange: Exchange::Nothing,
            old_len,
        });
    }
    match change_of(alloc, held, opened.joined, tree, hints, patch) {
        Ok(exchange) => Ok(Planned { exchange, old_len }),
        Err(stop) => Err(stop),
    }
}
