//! What a round does.
ghost use Rattle.std.specs.Prelude.{◌≡◌};
ghost use Rattle.hc_generate.specs.Actions.{action_of};

/// What a round does.
#[derive(Clone, Copy, Debug, PartialEq, Eq)]
pub(crate) enum Action {
    /// A consumer starts.
    Start,
    /// A live consumer asks for bytes.
    Poll,
    /// An exchange that is wanted gets its head, or bytes.
    Bring,
    /// A live consumer leaves.
    Cancel,
    /// Time passes.
    Wait,
    /// An exchange that is wanted breaks.
    Fault,
    /// What is stored for a key is not to be used any more.
    Doom,
}

/// What a round does where this was drawn below 100.
pub(crate) fn action_of(a: u64) -> Action
    ensures { result ≡ action_of a }
{
    match a {
        0..=29 => Action::Start,
        30..=74 => Action::Poll,
        75..=94 => Action::Bring,
        95 | 96 => Action::Cancel,
        97 => Action::Wait,
        98 => Action::Fault,
        _ => Action::Doom,
    }
}
