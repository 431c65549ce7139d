//! The commands of the program.
ghost use Rattle.std.specs.Prelude.{◌∷◌, [], map, IfNone, IfSome};
ghost use Rattle.std.specs.String.{string_bytes};
ghost use Rattle.hc_app.specs.Commands.{IsCommand, IsNoCommand, IsNoGeneration, IsNoOrigin};

use crate::address::read_address;
use hc_text::read_plain;
use hc_wire::Address;

/// Rounds of a run of the generator, at most.
const MOST_ROUNDS: u64 = 1_000_000;

/// What the words ask for.
#[derive(Clone, Copy, Debug, PartialEq, Eq)]
pub(crate) enum Command {
    /// A schedule is read, and its report written.
    Replay,
    /// Rounds of the generator, which follow the seed, and their summary.
    Generate {
        seed: u64,
        count: u64,
    },
    /// The test origin listens there, and answers for so many turns.
    Origin {
        listen: Address,
        turns: u64,
    },
    /// Clients are served at one address, from the origin at the other, for so many turns.
    Serve {
        listen: Address,
        origin: Address,
        turns: u64,
    },
    /// A schedule is read, and the image of what it leaves is written.
    Save,
    /// An image is read and a schedule behind it, whose report is written.
    Open,
    /// A schedule is read behind a front, and the report of what that tells is written.
    Conditional,
}

/// The command that the words spell.
pub(crate) fn command_of(words: &[String]) -> Option<Command>
    ensures found { IfSome result (IsCommand (map string_bytes words.now)) }
    ensures none { IfNone result (IsNoCommand (map string_bytes words.now)) }
{
    match words {
        [word] => by_one(word),
        [word, first, second] => by_three(word, first, second),
        [word, first, second, third] => serving_by(word, first, second, third),
        _ => None,
    }
}

/// What one word asks for.
fn by_one(word: &String) -> Option<Command>
    ensures found { IfSome result (IsCommand (string_bytes word.now ∷ [])) }
    ensures none { IfNone result (IsNoCommand (string_bytes word.now ∷ [])) }
{
    let word = word.as_str();
    if word == "replay" {
        Some(Command::Replay)
    } else if word == "save" {
        Some(Command::Save)
    } else if word == "open" {
        Some(Command::Open)
    } else if word == "conditional" {
        Some(Command::Conditional)
    } else {
        None
    }
}

/// What three words ask for.
fn by_three(word: &String, first: &String, second: &String) -> Option<Command>
    ensures found { IfSome result (IsCommand
        (string_bytes word.now ∷ string_bytes first.now ∷ string_bytes second.now ∷ [])) }
    ensures none { IfNone result (IsNoCommand
        (string_bytes word.now ∷ string_bytes first.now ∷ string_bytes second.now ∷ [])) }
{
    match generation_by(word, first, second) {
        Some(command) => Some(command),
        None => origin_by(word, first, second),
    }
}

/// A run of the generator, where the word asks for one, from a seed and of how many rounds.
fn generation_by(word: &String, seed: &String, count: &String) -> Option<Command>
    ensures found { IfSome result (IsCommand
        (string_bytes word.now ∷ string_bytes seed.now ∷ string_bytes count.now ∷ [])) }
    ensures none { IfNone result (IsNoGeneration
        (string_bytes word.now ∷ string_bytes seed.now ∷ string_bytes count.now ∷ [])) }
{
    if word.as_str() != "generate" {
        return None;
    }
    let Some(seed) = read_plain(seed.as_bytes()) else {
        return None;
    };
    let Some(count) = read_plain(count.as_bytes()) else {
        return None;
    };
    if count > MOST_ROUNDS {
        return None;
    }
    Some(Command::Generate { seed, count })
}

/// The test origin, where the word asks for it, at an address and for so many turns.
fn origin_by(word: &String, listen: &String, turns: &String) -> Option<Command>
    ensures found { IfSome result (IsCommand
        (string_bytes word.now ∷ string_bytes listen.now ∷ string_bytes turns.now ∷ [])) }
    ensures none { IfNone result (IsNoOrigin
        (string_bytes word.now ∷ string_bytes listen.now ∷ string_bytes turns.now ∷ [])) }
{
    if word.as_str() != "origin" {
        return None;
    }
    let Some(listen) = read_address(listen.as_bytes()) else {
        return None;
    };
    let Some(turns) = read_plain(turns.as_bytes()) else {
        return None;
    };
    Some(Command::Origin { listen, turns })
}

/// The serving loop, where the word asks for it, at an address, from an origin and for so many turns.
fn serving_by(word: &String, listen: &String, origin: &String, turns: &String) -> Option<Command>
    ensures found { IfSome result (IsCommand (string_bytes word.now ∷ string_bytes listen.now
        ∷ string_bytes origin.now ∷ string_bytes turns.now ∷ [])) }
    ensures none { IfNone result (IsNoCommand (string_bytes word.now ∷ string_bytes listen.now
        ∷ string_bytes origin.now ∷ string_bytes turns.now ∷ [])) }
{
    if word.as_str() != "serve" {
        return None;
    }
    let Some(listen) = read_address(listen.as_bytes()) else {
        return None;
    };
    let Some(origin) = read_address(origin.as_bytes()) else {
        return None;
    };
    let Some(turns) = read_plain(turns.as_bytes()) else {
        return None;
    };
    Some(Command::Serve {
        listen,
        origin,
        turns,
    })
}
