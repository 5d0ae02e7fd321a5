//! Which turns are drawn.
ghost use Rattle.std.specs.Prelude.{◌≡◌, ◌+◌, ◌≤◌};
ghost use Rattle.tx_watch.specs.Window.{start_of, turns_in};

/// The most turns of a picture.
const MOST_TURNS: u64 = 2_000;

/// The recorded turns from `first` to `last`, counted from 1, but at most 2,000 of them.
#[derive(Clone, Copy, Debug, PartialEq, Eq)]
pub struct Window {
    /// The number of the first turn; 0 is as 1.
    pub first: u64,
    /// The number of the last turn.
    pub last: u64,
}

impl Window {
    /// How many of so many turns come before the window.
    pub fn start(self, recorded: u64) -> u64
        ensures value { result ≡ start_of self recorded }
        ensures within { result ≤ recorded }
    {
        self.first.saturating_sub(1).min(recorded)
    }

    /// How many of so many turns the window has.
    pub fn turns(self, recorded: u64) -> u32
        ensures value { result ≡ turns_in self recorded }
        ensures most { result ≤ 2000 }
        ensures within { start_of self recorded + result ≤ recorded }
    {
        let start = self.start(recorded);
        let rest = self.last.min(recorded).saturating_sub(start);
        rest.min(MOST_TURNS) as u32
    }
}
