ghost use Rattle.std.specs.Prelude.{◌≡◌};
ghost use Rattle.simulate.specs.Totals.{capped_sum};

// How many ticks a line made and how many rows it refused, and how many words went in and came out.
#[derive(Clone, Copy)]
pub(crate) struct Totals {
    pub ticks: u64,
    pub refused: u64,
    pub entered: u64,
    pub left: u64,
}

impl Totals {
    pub(crate) fn new() -> Self
        ensures { result ≡ record { ticks = 0; refused = 0; entered = 0; left = 0 } }
    {
        Totals {
            ticks: 0,
            refused: 0,
            entered: 0,
            left: 0,
        }
    }

    // A tick more, which took so many words in and gave so many up.
    pub(crate) fn add_tick(&mut self, pair: (usize, usize))
        ensures ticks { self.new.ticks ≡ capped_sum self.old.ticks 1 }
        ensures refused { self.new.refused ≡ self.old.refused }
        ensures entered { self.new.entered ≡ capped_sum self.old.entered pair.0 }
        ensures left { self.new.left ≡ capped_sum self.old.left pair.1 }
    {
        self.ticks = self.ticks.saturating_add(1);
        self.entered = self.entered.saturating_add(pair.0 as u64);
        self.left = self.left.saturating_add(pair.1 as u64);
    }

    // A refused row more.
    pub(crate) fn add_refusal(&mut self)
        ensures { self.new ≡ record self.old { refused = capped_sum self.old.refused 1 } }
    {
        self.refused = self.refused.saturating_add(1);
    }
}
