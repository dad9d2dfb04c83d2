//! How far two devices are with a link.

ghost use Rattle.std.specs.Prelude.{◌≡◌};
ghost use Rattle.radio_model.specs.Radio.{is_apart, is_paging, is_requested, is_together};
ghost use Rattle.radio_air.specs.Plain.{plain_phase};

/// How far the two devices are with a link.
#[derive(Clone, Copy, Debug)]
pub(crate) enum Phase {
    /// There is none, and none is asked for.
    Apart,
    /// Device a pages device b, which does not hear it yet.
    Paging,
    /// The host of device b was asked.
    Requested,
    /// There is a link.
    Together,
}

impl Phase {
    pub(crate) fn is_apart(self) -> bool
        ensures { result ≡ is_apart (plain_phase self) }
    {
        matches!(self, Phase::Apart)
    }

    pub(crate) fn is_paging(self) -> bool
        ensures { result ≡ is_paging (plain_phase self) }
    {
        matches!(self, Phase::Paging)
    }

    pub(crate) fn is_requested(self) -> bool
        ensures { result ≡ is_requested (plain_phase self) }
    {
        matches!(self, Phase::Requested)
    }

    pub(crate) fn is_together(self) -> bool
        ensures { result ≡ is_together (plain_phase self) }
    {
        matches!(self, Phase::Together)
    }
}
