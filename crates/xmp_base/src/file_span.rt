// Ranges of places in a file.
ghost use Rattle.std.specs.Prelude.{◌≡◌, ◌<◌, ◌↔◌, IsNone, IfSome};

use xmp_values::Span;

/// The places of a file from `start` up to and without `end`.
///
/// The two numbers may be any: a span whose start is past its end has no place.
#[derive(Clone, Copy, Debug, PartialEq, Eq)]
pub struct FileSpan {
    pub start: u64,
    pub end: u64,
}

impl FileSpan {
    /// The same range, of `len` bytes in memory.
    pub fn within(&self, len: usize) -> Option<Span>
        ensures past { IsNone result ↔ (len < self.now.end) }
        ensures same { IfSome result (λ span. (span.start ≡ self.now.start) × (span.end ≡ self.now.end)) }
    {
        if self.end > len as u64 {
            return None;
        }
        Some(Span {
            start: self.start as usize,
            end: self.end as usize,
        })
    }
}
