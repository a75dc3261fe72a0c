// What the words of one line say: the field, or a command.
ghost use Rattle.std.specs.Prelude.{◌≡◌, [], ◌∷◌, MatchResult};
ghost use Rattle.std.specs.Option.{option_map, ok_or};
ghost use Rattle.text.specs.Numbers.{number};
ghost use Rattle.text.specs.Text.{only, words};
ghost use Rattle.commands.specs.declared.fault.Expected.TheVariants.{Number, Nothing, Equation};
ghost use Rattle.commands.specs.Format.{arguments, equation, offer_of, said};
ghost use Rattle.commands.specs.Giving.{Gives, saying_of};
ghost use Rattle.commands.specs.Steps.{step_of};

use crate::command::{Command, FieldName};
use crate::fault::Expected;
use crate::keyword::Keyword;
use crate::state::{State, expected_in, is_allowed};
use std::alloc::Global;
use text::number::parse_number;
use text::stop::Stop;
use text::words::{is_same, only_word, split_word};

// What a line says.
#[derive(Drop)]
pub(crate) enum Said {
    Field(FieldName),
    Command(Command),
}

// The one number after a keyword.
fn parse_count(keyword: Keyword, text: &[u8]) -> Result<usize, Expected>
    ensures { result ≡ ok_or (only number (words text.now)) (Number keyword) }
{
    let number = only_word(text).and_then(parse_number);
    let count = number.ok_or(Expected::Number { after: keyword })?;
    Ok(count as usize)
}

// The offer of an equation: numbers up to `|`, and one number after it.
#[tactic(auto, using(crate::proofs::Offering::one_more))]
fn parse_offer(heap: Global, text: &[u8]) -> Result<Command, Stop<Expected>>
    ensures { Gives step_of (ok_or (option_map offer_of (equation (words text.now))) Equation) result }
{
    let mut rest = text;
    let mut coefficients = Vec::new(heap);
    while let Some((word, after)) = split_word(rest) {
        if is_same(word, b"|") {
            let number = only_word(after).and_then(parse_number);
            let value = number.ok_or(Expected::Equation)?;
            return Ok(Command::Offer {
                coefficients,
                value,
            });
        }
        let coefficient = parse_number(word).ok_or(Expected::Equation)?;
        coefficients.push(coefficient)?;
        rest = after;
    }
    Err(Expected::Equation.into())
}

// Nothing stands after a keyword.
fn expect_nothing(keyword: Keyword, text: &[u8]) -> Result<(), Expected>
    ensures { MatchResult result (λ _. words text.now ≡ []) (λ e. (e ≡ Nothing keyword) × ((w : _) × (ws : _) × (words text.now ≡ w ∷ ws))) }
{
    match split_word(text) {
        None => Ok(()),
        Some(_) => Err(Expected::Nothing { after: keyword }),
    }
}

fn parse_arguments(heap: Global, keyword: Keyword, text: &[u8]) -> Result<Said, Stop<Expected>>
    ensures { Gives saying_of (arguments keyword (words text.now)) result }
{
    let command = match keyword {
        Keyword::Field => {
            let name = only_word(text).ok_or(Expected::FieldName)?;
            let field = FieldName::try_from(name).map_err(|_| Expected::FieldName)?;
            return Ok(Said::Field(field));
        }
        Keyword::Unknowns => Command::Unknowns(parse_count(keyword, text)?),
        Keyword::Offer => parse_offer(heap, text)?,
        Keyword::Kernel => Command::Kernel(parse_count(keyword, text)?),
        Keyword::Symbol => Command::Symbol(parse_count(keyword, text)?),
        Keyword::Rank => expect_nothing(keyword, text).map(|()| Command::Rank)?,
        Keyword::Publish => expect_nothing(keyword, text).map(|()| Command::Publish)?,
        Keyword::Solution => expect_nothing(keyword, text).map(|()| Command::Solution)?,
        Keyword::Report => expect_nothing(keyword, text).map(|()| Command::Report)?,
    };
    Ok(Said::Command(command))
}

// What a line says in this state of the pass.
pub(crate) fn parse_line(heap: Global, state: State, text: &[u8]) -> Result<Said, Stop<Expected>>
    ensures { Gives saying_of (said state (words text.now)) result }
{
    let (word, rest) = split_word(text).ok_or(expected_in(state))?;
    match Keyword::try_from(word) {
        Ok(keyword) if is_allowed(keyword, state) => parse_arguments(heap, keyword, rest),
        _ => Err(expected_in(state).into()),
    }
}
