// The kinds of blocks.
ghost use Rattle.std.specs.Prelude.{◌≡◌, if◌then◌else◌, nat_lt};
ghost use Rattle.two_pass.specs.Kinds.{number_of};

// A block's kind says how many times L* go into its mask.
#[derive(Clone, Copy)]
pub(crate) enum Kind {
    Page = 0,
    Ad = 1,
    FullPage = 2,
    FullAd = 3,
    ShortPage = 4,
    ShortAd = 5,
    Keystream = 6,
}

impl From<Kind> for u8 {
    ghost from_gives = { λ kind n. n ≡ number_of kind };

    fn from(kind: Kind) -> u8 {
        kind as u8
    }
}

// The kinds of the blocks of one text: of all but the last, of a full last one, of a short last one.
#[derive(Clone, Copy)]
pub(crate) struct Kinds {
    pub(crate) front: Kind,
    pub(crate) full: Kind,
    pub(crate) short: Kind,
}

impl Kinds {
    pub(crate) const AD: Kinds = Kinds {
        front: Kind::Ad,
        full: Kind::FullAd,
        short: Kind::ShortAd,
    };

    pub(crate) const PAGE: Kinds = Kinds {
        front: Kind::Page,
        full: Kind::FullPage,
        short: Kind::ShortPage,
    };

    // The kind of the last block, where `left` bytes are left and a full block has `size`.
    pub(crate) fn last(self, left: usize, size: usize) -> Kind
        ensures { result ≡ (if nat_lt left size then self.short else self.full) }
    {
        if left < size { self.short } else { self.full }
    }
}
