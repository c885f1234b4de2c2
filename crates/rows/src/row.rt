// The struct by itself, as the specs that its methods cite name it.
ghost use Rattle.std.specs.Prelude.{◌≡◌, ℕ, ◌≤◌, true, length, take, slice_index};
ghost use Rattle.narrow.specs.Rows.{all};
ghost use Rattle.rows.specs.Wire.{wire, unwired};
ghost use Rattle.rows.specs.Standing.{most_at, stands};

use lines::Place;

/// A row of lines, each behind its length as it is carried, and where each ends: line i, with its length, stands between the marks i and
/// i + 1. A ticket takes no heap, so they stand in arrays.
#[derive(Clone, Copy)]
pub struct Lines {
    pub(crate) place: Place,
    pub(crate) bytes: [u8; 1120],
    pub(crate) marks: [u16; 33],
    pub(crate) count: usize,
    ghost few: { count ≤ most_at place },
    ghost wired: { wire (unwired count bytes) ≡ take (slice_index marks count) bytes },
    ghost marked: { (i : ℕ) → i ≤ count → slice_index marks i ≡ length (wire (take i (unwired count bytes))) },
    ghost legible: { all (stands place) (unwired count bytes) ≡ true },
}
