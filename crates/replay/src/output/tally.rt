// How many lines of a file were replayed, and how many differ. The counts stop at the largest
// number, so that none comes back to 0.

#[derive(Clone, Copy, Default)]
pub struct Tally {
    pub replayed: u64,
    // A file that could not be read to its end counts here too.
    pub different: u64,
}

impl Tally {
    // One line more.
    pub fn count(&mut self, is_same: bool) {
        self.replayed = self.replayed.saturating_add(1);
        if !is_same {
            self.count_different();
        }
    }

    pub fn count_different(&mut self) {
        self.different = self.different.saturating_add(1);
    }
}
