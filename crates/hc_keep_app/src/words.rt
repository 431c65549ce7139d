//! The words of the program.
use hc_rules::Limits;
use hc_sockets::Patience;
use hc_text::read_plain;
use hc_wire::Address;
use std::net::SocketAddrV4;

/// What is asked for.
#[derive(Clone, Copy)]
pub(crate) enum Asked<'a> {
    /// The words are explained.
    Help,
    /// A proxy is run.
    Proxy(Plan<'a>),
}

/// How a proxy is run.
#[derive(Clone, Copy)]
pub(crate) struct Plan<'a> {
    pub(crate) listen: Address,
    pub(crate) origin: Address,
    /// The folder of its store, if it has one.
    pub(crate) store: Option<&'a str>,
    pub(crate) limits: Limits,
    pub(crate) patience: Patience,
    pub(crate) turns: u64,
}

/// What is wrong with the words.
#[derive(Clone, Copy)]
pub(crate) enum Wrong<'a> {
    /// This one, and what it isn't.
    Word(&'a str, &'static str),
    /// One of this name is missing.
    Missing(&'static str),
    /// This option has no number behind it.
    Bare(&'a str),
}

/// How long a body may be that is stored, in bytes, where no word says it.
const BODY: u64 = 16_777_216;

/// How much the store may hold, in bytes.
const STORE: u64 = 268_435_456;

/// For how many seconds a client that asks for nothing may stay.
const IDLE: u64 = 300;

/// For how many seconds a client may take for the rest of a head.
const HEAD: u64 = 30;

/// For how many seconds an origin may say nothing.
const ORIGIN: u64 = 120;

/// How many clients there are at once.
const CLIENTS: usize = 512;

/// As many turns as the loop may make.
const TURNS: u64 = (1 << 62) - 1;

/// What the words ask for.
pub(crate) fn asked_in(words: &[String]) -> Result<Asked<'_>, Wrong<'_>> {
    let Some(first) = word_at(words, 0) else {
        return Err(Wrong::Missing("LISTEN"));
    };
    if first == "--help" || first == "-h" {
        return Ok(Asked::Help);
    }
    let listen = address_in(first)?;
    let Some(second) = word_at(words, 1) else {
        return Err(Wrong::Missing("ORIGIN"));
    };
    let origin = address_in(second)?;
    let Some(store) = word_at(words, 2) else {
        return Err(Wrong::Missing("STORE"));
    };
    let plan = take_options(words, plan_of(listen, origin, store))?;
    Ok(Asked::Proxy(plan))
}

/// The plan of three words, where no option changes it.
fn plan_of(listen: Address, origin: Address, store: &str) -> Plan<'_> {
    Plan {
        listen,
        origin,
        store: if store == "-" { None } else { Some(store) },
        limits: Limits {
            max_entry: BODY,
            max_total: STORE,
        },
        patience: Patience {
            idle: IDLE,
            head: HEAD,
            origin: ORIGIN,
            clients: CLIENTS,
        },
        turns: TURNS,
    }
}

/// The plan with what the options behind the first three words change.
fn take_options<'a>(words: &'a [String], plan: Plan<'a>) -> Result<Plan<'a>, Wrong<'a>> {
    let mut plan = plan;
    let mut option = None;
    for i in 3..words.len() {
        let word = words[i].as_str();
        match option {
            None => option = Some(word),
            Some(name) => {
                take_option(name, word, &mut plan)?;
                option = None;
            }
        }
    }
    match option {
        Some(name) => Err(Wrong::Bare(name)),
        None => Ok(plan),
    }
}

/// Takes an option and its number.
fn take_option<'a>(name: &'a str, text: &'a str, plan: &mut Plan<'_>) -> Result<(), Wrong<'a>> {
    let Some(n) = read_plain(text.as_bytes()) else {
        return Err(Wrong::Word(text, "no plain number below 2^62"));
    };
    match name {
        "--body" => plan.limits.max_entry = n,
        "--store" => plan.limits.max_total = n,
        "--idle" => plan.patience.idle = n,
        "--head" => plan.patience.head = n,
        "--origin" => plan.patience.origin = n,
        "--clients" => plan.patience.clients = usize::try_from(n).unwrap_or(usize::MAX),
        "--turns" => plan.turns = n,
        _ => return Err(Wrong::Word(name, "no option")),
    }
    Ok(())
}

/// The address that the word is.
fn address_in(word: &str) -> Result<Address, Wrong<'_>> {
    match word.parse::<SocketAddrV4>() {
        Ok(address) if address.port() > 0 => Ok(Address {
            octets: address.ip().octets(),
            port: address.port(),
        }),
        _ => Err(Wrong::Word(word, "no address and port, as 127.0.0.1:8080")),
    }
}

/// The word at a place.
fn word_at(words: &[String], at: usize) -> Option<&str> {
    let word = words.get(at)?;
    Some(word.as_str())
}
