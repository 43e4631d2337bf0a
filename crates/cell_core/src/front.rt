// What waits in front in a `delay`.

ghost use Rattle.std.specs.Prelude.{◌≡◌, ◌<◌, length};
ghost use Rattle.cell_core.specs.{Queue.IsPassed, Queue.place_within as placed};

use crate::entry::Entries;

/// What a `delay` keeps in front, shared by its states until it is used up: its q, and the values,
/// the newest first, which came before those behind. The last was out when the front was made.
#[derive(Drop)]
pub struct Front {
    pub(crate) q: u64,
    pub(crate) entries: Entries,
    ghost filled: { 0 < length entries },
}

impl Front {
    /// That place, or the last where there are fewer.
    #[inline(always)]
    pub(crate) fn within(&self, at: usize) -> usize
        ensures is { result ≡ placed (length self.now.entries) at }
        ensures bound { result < length self.now.entries }
    {
        let count = self.entries.as_slice().len();
        if at < count { at } else { count - 1 }
    }

    /// Where what is out stands dt later, which stood at that place at that age of the front; 0
    /// also where all in front has passed then.
    #[inline(always)]
    pub(crate) fn passed(&self, from: usize, age: u64, dt: u64) -> usize
        requires { from < length self.now.entries }
        ensures { IsPassed self.now.entries age dt from result }
    {
        let entries = self.entries.as_slice();
        let mut at = from;
        while at > 0 {
            if dt < entries[at - 1].time.saturating_sub(age) {
                return at;
            }
            at -= 1;
        }
        0
    }
}
