//! The packet, or else the resources value, that meets another named range.
//!
//! The named ranges are gone over once, without an order: the first that meets the value is kept.
ghost use Rattle.std.specs.Prelude.{◌≡◌, ◌≤◌, ◌<◌, flat_map, length, drop, slice_get, slice_range, Some};
ghost use Rattle.std.specs.Option.{option_map};
ghost use Rattle.tiff_dirs.specs.Directories.{is_apart};
ghost use Rattle.tiff_dirs.specs.Tiff.{entries_in};
ghost use Rattle.tiff_dirs.specs.Overlaps.{apart_of, dir_span, named_in, own, overlap, place_of};
ghost use Rattle.tiff_dirs.specs.Nearest.{closest, MeetingAnswer, OverlapAnswer};

use crate::entry::Entry;
use crate::kept_pairs::closest_kept;
use crate::layout::Layout;
use crate::spans::closer;
use crate::stop::TiffStop;
use crate::types::{fits, is_packet, size_of};
use crate::walk::Dirs;
use xmp_base::FileSpan;
use xmp_values::Rule;

/// Whether a value stands apart from its entry.
fn is_apart(layout: Layout, entry: &Entry) -> bool
    ensures { result ≡ is_apart layout entry.now }
{
    !fits(size_of(layout, entry.code), entry.count, layout.word)
}

/// The best with the value of an entry, where that stands apart.
fn closer_value(
    layout: Layout,
    own: FileSpan,
    best: Option<FileSpan>,
    entry: &Entry,
) -> Option<FileSpan>
    ensures { result ≡ closest own best (apart_of layout entry.now) }
{
    if is_apart(layout, entry) {
        closer(own, best, entry.value)
    } else {
        best
    }
}

/// A value that meets another range.
fn stop_of(value: FileSpan, other: FileSpan) -> TiffStop
    ensures { result ≡ overlap value other }
{
    TiffStop::Fault(
        Rule::Overlap,
        value.start,
        other.start,
        other.end.saturating_sub(other.start),
    )
}

impl Dirs {
    /// The best with the values of entries of a directory.
    fn closest_value(
        &self,
        own: FileSpan,
        best: Option<FileSpan>,
        dir: usize,
        from: usize,
        to: usize,
    ) -> Option<FileSpan>
        requires dir { dir < length self.now.dirs }
        requires within { to ≤ length (entries_in (slice_get self.now.dirs dir)) }
        ensures { result ≡ closest own best (flat_map (apart_of self.now.layout) (slice_range (entries_in (slice_get self.now.dirs dir)) from to)) }
    {
        let mut best = best;
        for i in from..to {
            best = closer_value(self.layout(), own, best, &self.entry(dir, i));
        }
        best
    }

    /// The best with the directories after the first, and the values of their entries.
    fn closest_directory(&self, own: FileSpan, best: Option<FileSpan>) -> Option<FileSpan>
        ensures { result ≡ closest own best (flat_map (λ d. named_in self.now.layout d d.entries) (drop 1 self.now.dirs)) }
    {
        let mut best = best;
        for dir in 1..self.directories() {
            best = closer(own, best, self.dir_span(dir));
            best = self.closest_value(own, best, dir, 0, self.entries(dir));
        }
        best
    }

    /// The best with the picture ranges.
    fn closest_picture(&self, own: FileSpan, best: Option<FileSpan>) -> Option<FileSpan>
        ensures { result ≡ closest own best self.now.pictures }
    {
        closest_kept(
            self.layout.big,
            self.len,
            self.pieces.as_slice(),
            self.pictures.list.as_slice(),
            own,
            best,
        )
    }

    /// The place of a directory, with its count and the offset of the next.
    fn dir_span(&self, dir: usize) -> FileSpan
        requires { dir < length self.now.dirs }
        ensures { option_map dir_span (slice_get self.now.dirs dir) ≡ Some result }
    {
        let directory = &self.found[dir];
        FileSpan {
            start: directory.place.at,
            end: directory.place.end,
        }
    }

    /// The number of entries of the first directory before the first of a tag.
    fn place_of(&self, tag: u16) -> usize
        requires { 0 < length self.now.dirs }
        ensures { result ≡ place_of tag (entries_in (slice_get self.now.dirs 0)) }
    {
        let count = self.entries(0);
        for i in 0..count {
            if self.entry(0, i).tag == tag {
                return i;
            }
        }
        count
    }

    /// The value of the first entry of a tag in the first directory, where it is of type BYTE or
    /// UNDEFINED and stands apart.
    fn own(&self, tag: u16) -> Option<FileSpan>
        ensures { result ≡ own tag self.now }
    {
        match self.first_tag(tag) {
            Some(entry) if is_packet(entry.code) && is_apart(self.layout(), &entry) => {
                Some(entry.value)
            }
            _ => None,
        }
    }

    /// That value, with the first other range that it meets.
    fn meeting(&self, tag: u16) -> Option<(FileSpan, FileSpan)>
        ensures { MeetingAnswer tag self.now result }
    {
        let Some(own) = self.own(tag) else {
            return None;
        };
        if self.directories() == 0 {
            return None;
        }
        let header = FileSpan {
            start: 0,
            end: self.layout().header,
        };
        let count = self.entries(0);
        let first = self.place_of(tag);
        let mut best = closer(own, None, header);
        best = closer(own, best, self.dir_span(0));
        best = self.closest_value(own, best, 0, 0, first);
        best = self.closest_value(own, best, 0, first + 1, count);
        best = self.closest_directory(own, best);
        best = self.closest_picture(own, best);
        match best {
            Some(other) => Some((own, other)),
            None => None,
        }
    }

    /// The packet, or else the resources value, that meets another named range.
    pub(crate) fn overlap(&self) -> Option<TiffStop>
        ensures { OverlapAnswer self.now result }
    {
        if let Some((value, other)) = self.meeting(700) {
            return Some(stop_of(value, other));
        }
        match self.meeting(34377) {
            Some((value, other)) => Some(stop_of(value, other)),
            None => None,
        }
    }
}
