// How far a pass has come, and which commands may follow.
ghost use Rattle.std.specs.Prelude.{◌≡◌};
ghost use Rattle.commands.specs.Order.{after, allowed, expected_in};
ghost use Rattle.commands.specs.Steps.{step_of};

use crate::command::Command;
use crate::fault::Expected;
use crate::keyword::Keyword;

#[derive(Clone, Copy)]
pub(crate) enum State {
    // Nothing was said.
    Start,
    // The field was named.
    Named,
    // A block is open, and collects equations.
    Collecting,
    // The block was published.
    Published,
}

pub(crate) fn is_allowed(keyword: Keyword, state: State) -> bool
    ensures { result ≡ allowed keyword state }
{
    match keyword {
        Keyword::Field => matches!(state, State::Start),
        Keyword::Unknowns => true,
        Keyword::Offer | Keyword::Rank | Keyword::Publish => matches!(state, State::Collecting),
        Keyword::Solution | Keyword::Kernel | Keyword::Symbol | Keyword::Report => {
            matches!(state, State::Published)
        }
    }
}

// What a line that is not allowed should have been.
pub(crate) fn expected_in(state: State) -> Expected
    ensures { result ≡ expected_in state }
{
    match state {
        State::Start => Expected::FieldOrUnknowns,
        State::Named => Expected::Unknowns,
        State::Collecting => Expected::Collecting,
        State::Published => Expected::Published,
    }
}

pub(crate) fn state_after(command: &Command) -> State
    ensures { result ≡ after (step_of command.now) }
{
    match command {
        Command::Unknowns(_) | Command::Offer { .. } | Command::Rank => State::Collecting,
        Command::Publish
        | Command::Solution
        | Command::Kernel(_)
        | Command::Symbol(_)
        | Command::Report => State::Published,
    }
}
