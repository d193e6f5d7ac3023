//! The words of the command line.
ghost use Rattle.std.specs.Prelude.{◌≡◌, ◌≤◌, None, Some, map, string_bytes, IfSome, MatchResult};
ghost use Rattle.std.specs.Option.{option_map};
ghost use Rattle.clap.specs.Words.{found_of, rows_of};
ghost use Rattle.ots_arguments.specs.Arguments.{described};
ghost use Rattle.ots_calendar_words.specs.Words.{anchoring_in, arguments_of, asked, asked_by, batch_in, command_in};
ghost use Rattle.ots_calendar_words.specs.Words.{command_of, form_of, read_anchoring, read_as, read_batch};
ghost use Rattle.ots_calendar_words.specs.Words.{read_serving, serving_in, word_of, workers_in};

use crate::command::{Anchoring, Batch, DaemonCommand, Serving};
use clap::ArgMatches;
use ots_arguments::{
    Argument, Kind, WordsError, file_name, number_of, perhaps_number_of, read_arguments, value,
};
use std::alloc::Global;

/// How many workers there are where the words don't say.
const WORKERS: u64 = 4;

/// The most workers.
const MAX_WORKERS: u64 = 64;

/// The greatest port.
const MAX_PORT: u64 = 65535;

/// The most connections that serving may be bounded to.
const MAX_ACCEPT: u64 = 4294967295;

/// The greatest height.
const MAX_HEIGHT: u64 = 9223372036854775807;

/// The commands by their words.
#[derive(Clone, Copy)]
enum Form {
    Serve,
    Batch,
    Tip,
    Anchor,
    List,
    Migrate,
}

/// How connections are answered, by the values of its arguments.
fn serving<'a>(matches: &ArgMatches<'a>) -> Option<Serving<'a>>
    ensures { option_map read_serving result ≡ serving_in (rows_of (found_of matches.now)) }
{
    Some(Serving {
        key: file_name(matches, "key")?,
        uri: value(matches, "uri")?,
        port: number_of(matches, "port", 1, MAX_PORT)? as u16,
        workers: workers(matches)?,
        accept: perhaps_number_of(matches, "accept", 1, MAX_ACCEPT)?,
    })
}

/// How many workers there are.
fn workers(matches: &ArgMatches<'_>) -> Option<u64>
    ensures workers { result ≡ workers_in (rows_of (found_of matches.now)) }
    ensures within { IfSome result (λ n. (1 ≤ n) × (n ≤ MAX_WORKERS)) }
{
    match perhaps_number_of(matches, "workers", 1, MAX_WORKERS)? {
        Some(workers) => Some(workers),
        None => Some(WORKERS),
    }
}

/// What is put under one commitment, by the values of its arguments.
fn batch<'a>(matches: &ArgMatches<'a>) -> Option<Batch<'a>>
    ensures { option_map read_batch result ≡ batch_in (rows_of (found_of matches.now)) }
{
    Some(Batch {
        key: file_name(matches, "key")?,
        uri: value(matches, "uri")?,
        digests: file_name(matches, "digests")?,
    })
}

/// The block that a tip is to be anchored in, by the values of its arguments.
fn anchoring<'a>(matches: &ArgMatches<'a>) -> Option<Anchoring<'a>>
    ensures { option_map read_anchoring result ≡ anchoring_in (rows_of (found_of matches.now)) }
{
    Some(Anchoring {
        block: file_name(matches, "block")?,
        height: number_of(matches, "height", 0, MAX_HEIGHT)?,
    })
}

/// The arguments of `serve`.
static SERVE: [Argument; 5] = [
    Argument("key", Kind::Required),
    Argument("uri", Kind::Required),
    Argument("port", Kind::Required),
    Argument("workers", Kind::Optional),
    Argument("accept", Kind::Optional),
];

/// The arguments of `batch`.
static BATCH: [Argument; 3] = [
    Argument("key", Kind::Required),
    Argument("uri", Kind::Required),
    Argument("digests", Kind::Positional),
];

/// The arguments of `anchor`.
static ANCHOR: [Argument; 2] = [
    Argument("block", Kind::Positional),
    Argument("height", Kind::Required),
];

/// The arguments of `migrate`.
static MIGRATE: [Argument; 1] = [Argument("old", Kind::Positional)];

/// The arguments of `tip` and `list`.
static NONE: [Argument; 0] = [];

impl Form {
    /// The command with this word.
    fn of(word: &str) -> Option<Form>
        ensures { result ≡ form_of word.now }
    {
        match word {
            "serve" => Some(Form::Serve),
            "batch" => Some(Form::Batch),
            "tip" => Some(Form::Tip),
            "anchor" => Some(Form::Anchor),
            "list" => Some(Form::List),
            "migrate" => Some(Form::Migrate),
            _ => None,
        }
    }

    /// Its word.
    fn word(self) -> &'static str
        ensures { result.now ≡ word_of self }
    {
        match self {
            Form::Serve => "serve",
            Form::Batch => "batch",
            Form::Tip => "tip",
            Form::Anchor => "anchor",
            Form::List => "list",
            Form::Migrate => "migrate",
        }
    }

    /// Its arguments.
    fn arguments(self) -> &'static [Argument]
        ensures { map described result.now ≡ arguments_of self }
    {
        match self {
            Form::Serve => SERVE.as_slice(),
            Form::Batch => BATCH.as_slice(),
            Form::Tip | Form::List => NONE.as_slice(),
            Form::Anchor => ANCHOR.as_slice(),
            Form::Migrate => MIGRATE.as_slice(),
        }
    }

    /// The command with the values that the words give its arguments.
    fn command_in<'a>(self, matches: &ArgMatches<'a>) -> Option<DaemonCommand<'a>>
        ensures { option_map read_as result ≡ command_in self (rows_of (found_of matches.now)) }
    {
        match self {
            Form::Serve => Some(DaemonCommand::Serve(serving(matches)?)),
            Form::Batch => Some(DaemonCommand::Batch(batch(matches)?)),
            Form::Tip => Some(DaemonCommand::Tip),
            Form::Anchor => Some(DaemonCommand::Anchor(anchoring(matches)?)),
            Form::List => Some(DaemonCommand::List),
            Form::Migrate => Some(DaemonCommand::Migrate(file_name(matches, "old")?)),
        }
    }
}

/// What the words ask for, where they are of a command's form. The first of them names the journal.
pub fn read_words<'a>(alloc: Global, words: &'a [String]) -> Result<DaemonCommand<'a>, WordsError>
    ensures { MatchResult result (λ c. asked words.entry.now ≡ Some (read_as c))
        (λ e. e ≡ WordsError.Usage → asked words.entry.now ≡ None) }
{
    let Some((journal, words)) = words.split_first() else {
        return Err(WordsError::Usage);
    };
    if journal.is_empty() {
        return Err(WordsError::Usage);
    }
    read_command(alloc, words)
}

/// What the words after the journal's name ask for.
fn read_command<'a>(alloc: Global, words: &'a [String]) -> Result<DaemonCommand<'a>, WordsError>
    ensures { MatchResult result (λ c. command_of (map string_bytes words.entry.now) ≡ Some (read_as c))
        (λ e. e ≡ WordsError.Usage → command_of (map string_bytes words.entry.now) ≡ None) }
{
    let Some(word) = words.first() else {
        return Err(WordsError::Usage);
    };
    let Some(form) = Form::of(word) else {
        return Err(WordsError::Usage);
    };
    read_form(alloc, form, words)
}

/// What the words ask for, of which the first is the command's.
fn read_form<'a>(
    alloc: Global,
    form: Form,
    words: &'a [String],
) -> Result<DaemonCommand<'a>, WordsError>
    ensures { MatchResult result (λ c. asked_by form (map string_bytes words.entry.now) ≡ Some (read_as c))
        (λ e. e ≡ WordsError.Usage → asked_by form (map string_bytes words.entry.now) ≡ None) }
{
    match read_arguments(alloc, form.word(), form.arguments(), words) {
        Ok(matches) => match form.command_in(&matches) {
            Some(command) => Ok(command),
            None => Err(WordsError::Usage),
        },
        Err(error) => Err(error),
    }
}
