// The settings of a link, and the numbers that follow from them.
ghost use Rattle.std.specs.Prelude.{◌≡◌};
ghost use Rattle.code.specs.Settings.{accepted, delay_of, k_of, n_of, d_of, pair_count};

// W, T, B, N and L, as set.
#[derive(Clone, Copy)]
pub struct Settings {
    pub window: u8,
    pub delay: u8,
    pub burst: u8,
    pub scattered: u8,
    pub lanes: u8,
}

impl Settings {
    // T as the formulas use it: the smaller of T and W - 1.
    #[tactic(auto, unfolding(crate::specs::Settings::delay_of))]
    pub fn effective_delay(self) -> u8
        ensures { result ≡ delay_of self }
    {
        self.delay.min(self.window.saturating_sub(1))
    }

    // k, the source symbols of a word.
    #[tactic(auto, unfolding(crate::specs::Settings::k_of))]
    pub fn sources(self) -> usize
        ensures { result ≡ k_of self }
    {
        self.effective_delay().saturating_sub(self.scattered) as usize + 1
    }

    // The pairs that the source symbols of a word fill.
    pub fn pairs(self) -> usize
        ensures { result ≡ pair_count self }
    {
        self.sources().div_ceil(2)
    }

    // n, the symbols of a word.
    #[tactic(auto, unfolding(crate::specs::Settings::n_of, crate::specs::Settings::k_of, crate::specs::Settings::delay_of))]
    pub fn symbols(self) -> usize
        ensures { result ≡ n_of self }
    {
        self.sources() + self.burst as usize
    }

    // d, the rows that carry α.
    #[tactic(auto, unfolding(crate::specs::Settings::d_of))]
    pub fn alpha_rows(self) -> usize
        ensures { result ≡ d_of self }
    {
        self.burst.saturating_sub(self.scattered) as usize + 1
    }

    #[tactic(auto, unfolding(crate::specs::Settings::accepted, crate::specs::Settings::all))]
    pub fn accepted(self) -> bool
        ensures { result ≡ accepted self }
    {
        1 <= self.scattered
            && self.scattered <= self.burst
            && self.burst <= self.effective_delay()
            && self.symbols() <= 16
            && 1 <= self.lanes
            && self.lanes <= 64
    }
}
