ghost use Rattle.std.specs.Prelude.{◌≡◌, ◌+◌, ◌≤◌, length};
ghost use Rattle.std.proofs.Math.Seq.{paste};

// A type of its own, so that the laws of a received grid's cells can be shown of it.
/// The cells that a caller lends, row after row.
#[derive(Drop)]
pub struct Rows<'a> {
    pub lent: &'a mut [i32],
}

impl Rows<'_> {
    /// Puts a row into the cells from a place on, and leaves all else.
    pub fn put(&mut self, at: usize, row: &[i32])
        requires { at + length row.now ≤ length self.old.lent.now }
        ensures { self.new.lent.now ≡ paste self.old.lent.now at row.now (length row.now) }
    {
        self.lent[at..at + row.len()].copy_from_slice(row);
    }
}
