//! How the devices count their calls, so that one of them fails.
/// A count of calls. One of them may be chosen, by its number.
#[derive(Clone, Copy)]
pub(crate) struct Calls {
    made: u64,
    chosen: u64,
}

impl Calls {
    /// No call so far. Those are counted from 1; 0 chooses none.
    pub(crate) fn with_chosen(chosen: u64) -> Calls {
        Calls { made: 0, chosen }
    }

    /// Counts one more, and says whether it is the chosen one.
    pub(crate) fn count(&mut self) -> bool {
        self.made = self.made.saturating_add(1);
        self.made == self.chosen
    }

    /// How many calls there were.
    pub(crate) fn made(self) -> u64 {
        self.made
    }
}
