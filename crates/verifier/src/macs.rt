// The MACs of a row of lines, worked out anew.
ghost use Rattle.std.specs.Prelude.{◌≡◌, ℕ, ◌≤◌, length, get_or, take, slice_index_or};
ghost use Rattle.hmac.specs.declared.Mac.{Mac};
ghost use Rattle.rows.specs.Row.{rows};
ghost use Rattle.verifier.specs.Chain.{chained};

use hmac::Mac;
use rows::Lines;

/// All MACs of a row, from the one that it starts with to that of its last line.
// An array and a count: this is `Copy`, and `ArrayVec` is not; it also asks for a `Default`, which a MAC does not have.
#[derive(Clone, Copy)]
pub struct Macs {
    each: [Mac; 33],
    count: usize,
    ghost few: { count ≤ 32 },
}

/// Each line's MAC under the one before.
pub fn work_out(start: Mac, lines: &Lines) -> Macs
    ensures count { result.count ≡ length (rows lines.now) }
    ensures each { (j : ℕ) (d : Mac) → j ≤ length (rows lines.now) → (get_or result.each j d).bytes ≡ chained start.bytes (take j (rows lines.now)) }
{
    let mut each = [start; 33];
    let count = lines.len();
    // By its place, as each MAC needs the one before it.
    for (i, line) in lines.iter().enumerate() {
        each[i + 1] = each[i].mac(line);
    }
    Macs { each, count }
}

impl Macs {
    pub fn last(self) -> Mac
        ensures { (d : Mac) → result ≡ slice_index_or self.each self.count d }
    {
        self.each[self.count]
    }
}
