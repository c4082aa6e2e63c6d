//! How planes are turned.

ghost use Rattle.std.specs.Prelude.{◌≡◌, ◌<◌};

/// How the words of planes are turned: by `low` places where the mask has ones, and by `high` elsewhere.
#[derive(Clone, Copy)]
pub(crate) struct Turn {
    pub(crate) low: u64,
    pub(crate) high: u64,
    pub(crate) mask: u64,
    pub ghost few: { low < 64 },
    pub ghost some: { 0 < low },
    pub ghost fewer: { high < 64 },
    pub ghost more: { 0 < high },
}

impl Turn {
    ghost use Rattle.srt_aes.specs.inside.Turns.{bend_of};

    #[inline(always)]
    pub(crate) fn new(low: u64, high: u64, mask: u64) -> Turn
        requires few { low < 64 }
        requires some { 0 < low }
        requires fewer { high < 64 }
        requires more { 0 < high }
        ensures { bend_of result ≡ record { low = low; high = high; mask = mask } }
    {
        Turn { low, high, mask }
    }
}
