ghost use Rattle.std.specs.Prelude.{◌≡◌, ◌↔◌, IsTrue};
ghost use Rattle.rtps_fragments.specs.declared.fragments.Fragments.TheVariants.{Read};

/// What becomes of samples that come in fragments (DDSI-RTPS 2.5, 8.3.8.3 "DataFrag").
#[derive(Clone, Copy)]
pub enum Fragments {
    /// Each DATA_FRAG and NACK_FRAG is skipped, as a submessage that is not read.
    Skipped,
    /// Each DATA_FRAG with fragments that can be used is read, and each NACK_FRAG that can be read.
    Read,
}

impl Fragments {
    pub(crate) fn are_read(self) -> bool
        ensures { IsTrue result ↔ self ≡ Read }
    {
        match self {
            Fragments::Skipped => false,
            Fragments::Read => true,
        }
    }
}
