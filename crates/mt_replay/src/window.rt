//! The timestamps whose log updates survive.
ghost use Rattle.std.specs.Prelude.{◌≡◌};
ghost use Rattle.mt_replay.specs.Survivors.{is_within};

/// The timestamps from `begin` up to, but not including, `cutoff`.
#[derive(Clone, Copy, Debug)]
pub struct Window {
    /// The first timestamp.
    pub begin: u64,
    /// The first timestamp that is too late.
    pub cutoff: u64,
}

impl Window {
    /// Returns whether a log update of this timestamp survives.
    pub fn contains(self, timestamp: u64) -> bool
        ensures { result ≡ is_within self timestamp }
    {
        self.begin <= timestamp && timestamp < self.cutoff
    }
}
