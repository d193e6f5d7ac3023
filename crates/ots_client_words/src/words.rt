//! The words of the command line.
ghost use Rattle.std.specs.Prelude.{◌≡◌, ◌≤◌, None, Some, map, string_bytes, IfOk, IfSome, MatchResult};
ghost use Rattle.std.specs.Option.{option_map};
ghost use Rattle.clap.specs.Words.{found_of, rows_of};
ghost use Rattle.ots_arguments.specs.Arguments.{described};
ghost use Rattle.ots_client_words.specs.Words.{arguments_of, asked_by, chaining_in, command_in, command_of, form_of};
ghost use Rattle.ots_client_words.specs.Words.{read_as, read_chaining, read_stamping, read_upgrading};
ghost use Rattle.ots_client_words.specs.Words.{read_verification};
ghost use Rattle.ots_client_words.specs.Words.{stamping_in};
ghost use Rattle.ots_client_words.specs.Words.{upgrading_in, verification_in, wanted_calendars_in, word_of};

use crate::arguments::{header_file, litecoin_file, pins_file, sampling, wanted};
use crate::command::{Chaining, ClientCommand, Stamping, Upgrading, Verification};
use crate::limits::MAX_STAMPED;
use clap::ArgMatches;
use ots_arguments::{Argument, Kind, WordsError, file_name, file_names, read_arguments, value};
use std::alloc::{AllocError, Global};

/// The commands by their first words.
#[derive(Clone, Copy)]
enum Form {
    Info,
    Canon,
    Merge,
    Prune,
    Verify,
    Stamp,
    Upgrade,
    Sample,
    Chain,
}

/// What `verify` is to check, by the values of its arguments.
fn verification<'a>(matches: &ArgMatches<'a>) -> Option<Verification<'a>>
    ensures { option_map read_verification result ≡ verification_in (rows_of (found_of matches.now)) }
{
    Some(Verification {
        target: file_name(matches, "file")?,
        proof: file_name(matches, "proof")?,
        bitcoin: header_file(value(matches, "headers")?, value(matches, "from")?)?,
        litecoin: litecoin_file(value(matches, "litecoin"), value(matches, "litecoin-from"))?,
    })
}

/// What `chain` is to check, by the values of its arguments.
fn chaining<'a>(matches: &ArgMatches<'a>) -> Option<Chaining<'a>>
    ensures { option_map read_chaining result ≡ chaining_in (rows_of (found_of matches.now)) }
{
    Some(Chaining {
        headers: header_file(value(matches, "headers")?, value(matches, "from")?)?,
        pins: pins_file(value(matches, "pins"))?,
    })
}

/// What `stamp` is to do, by the values of its arguments.
fn stamping<'a>(alloc: Global, matches: &ArgMatches<'a>) -> Result<Option<Stamping<'a>>, AllocError>
    ensures { IfOk result (λ found. option_map read_stamping found ≡ stamping_in (rows_of (found_of matches.now))) }
{
    let Some((calendars, least)) = wanted_calendars(matches) else {
        return Ok(None);
    };
    let Some(files) = file_names(matches, "files", MAX_STAMPED) else {
        return Ok(None);
    };
    Ok(Some(Stamping {
        calendars,
        least,
        files: files.to_vec(alloc)?,
    }))
}

/// The calendars that are to stamp, and how many of them have to.
fn wanted_calendars<'a>(matches: &ArgMatches<'a>) -> Option<(&'a str, u32)>
    ensures wanted { option_map (λ r. (r.0.now, r.1)) result ≡ wanted_calendars_in (rows_of (found_of matches.now)) }
    ensures some { IfSome result (λ r. 1 ≤ r.1) }
{
    Some((
        value(matches, "calendars")?,
        wanted(value(matches, "min")?)?,
    ))
}

/// What `upgrade` is to do, by the values of its arguments.
fn upgrading<'a>(matches: &ArgMatches<'a>) -> Option<Upgrading<'a>>
    ensures { option_map read_upgrading result ≡ upgrading_in (rows_of (found_of matches.now)) }
{
    Some(Upgrading {
        calendars: value(matches, "calendars")?,
        proof: file_name(matches, "in")?,
        to: file_name(matches, "out")?,
    })
}

/// The arguments of `info`.
static INFO: [Argument; 1] = [Argument("proof", Kind::Positional)];

/// The arguments of `canon` and `prune`.
static REWRITING: [Argument; 2] = [
    Argument("in", Kind::Positional),
    Argument("out", Kind::Positional),
];

/// The arguments of `merge`.
static MERGE: [Argument; 3] = [
    Argument("a", Kind::Positional),
    Argument("b", Kind::Positional),
    Argument("out", Kind::Positional),
];

/// The arguments of `verify`.
static VERIFY: [Argument; 6] = [
    Argument("file", Kind::Positional),
    Argument("proof", Kind::Positional),
    Argument("headers", Kind::Positional),
    Argument("from", Kind::Required),
    Argument("litecoin", Kind::Optional),
    Argument("litecoin-from", Kind::Optional),
];

/// The arguments of `stamp`.
static STAMP: [Argument; 3] = [
    Argument("calendars", Kind::Required),
    Argument("min", Kind::Required),
    Argument("files", Kind::Several),
];

/// The arguments of `upgrade`.
static UPGRADE: [Argument; 3] = [
    Argument("in", Kind::Positional),
    Argument("out", Kind::Positional),
    Argument("calendars", Kind::Required),
];

/// The arguments of `sample`.
static SAMPLE: [Argument; 1] = [Argument("paths", Kind::Positional)];

/// The arguments of `chain`.
static CHAIN: [Argument; 3] = [
    Argument("headers", Kind::Positional),
    Argument("from", Kind::Required),
    Argument("pins", Kind::Optional),
];

impl Form {
    /// The command with this word.
    fn of(word: &str) -> Option<Form>
        ensures { result ≡ form_of word.now }
    {
        match word {
            "info" => Some(Form::Info),
            "canon" => Some(Form::Canon),
            "merge" => Some(Form::Merge),
            "prune" => Some(Form::Prune),
            "verify" => Some(Form::Verify),
            "stamp" => Some(Form::Stamp),
            "upgrade" => Some(Form::Upgrade),
            "sample" => Some(Form::Sample),
            "chain" => Some(Form::Chain),
            _ => None,
        }
    }

    /// Its word.
    fn word(self) -> &'static str
        ensures { result.now ≡ word_of self }
    {
        match self {
            Form::Info => "info",
            Form::Canon => "canon",
            Form::Merge => "merge",
            Form::Prune => "prune",
            Form::Verify => "verify",
            Form::Stamp => "stamp",
            Form::Upgrade => "upgrade",
            Form::Sample => "sample",
            Form::Chain => "chain",
        }
    }

    /// Its arguments.
    fn arguments(self) -> &'static [Argument]
        ensures { map described result.now ≡ arguments_of self }
    {
        match self {
            Form::Info => INFO.as_slice(),
            Form::Canon | Form::Prune => REWRITING.as_slice(),
            Form::Merge => MERGE.as_slice(),
            Form::Verify => VERIFY.as_slice(),
            Form::Stamp => STAMP.as_slice(),
            Form::Upgrade => UPGRADE.as_slice(),
            Form::Sample => SAMPLE.as_slice(),
            Form::Chain => CHAIN.as_slice(),
        }
    }

    /// The command with the values that the words give its arguments.
    fn command_in<'a>(
        self,
        alloc: Global,
        matches: &ArgMatches<'a>,
    ) -> Result<Option<ClientCommand<'a>>, AllocError>
        ensures { IfOk result (λ found. option_map read_as found ≡ command_in self (rows_of (found_of matches.now))) }
    {
        match self {
            Form::Info => Ok(info(matches)),
            Form::Canon => Ok(canon(matches)),
            Form::Merge => Ok(merge(matches)),
            Form::Prune => Ok(prune(matches)),
            Form::Verify => Ok(verification(matches).map(ClientCommand::Verify)),
            Form::Stamp => Ok(stamping(alloc, matches)?.map(ClientCommand::Stamp)),
            Form::Upgrade => Ok(upgrading(matches).map(ClientCommand::Upgrade)),
            Form::Sample => Ok(sample(matches)),
            Form::Chain => Ok(chaining(matches).map(ClientCommand::Chain)),
        }
    }
}

/// `info` with the values of its argument.
fn info<'a>(matches: &ArgMatches<'a>) -> Option<ClientCommand<'a>>
    ensures { option_map read_as result ≡ command_in Form.Info (rows_of (found_of matches.now)) }
{
    Some(ClientCommand::Info(file_name(matches, "proof")?))
}

/// `canon` with the values of its arguments.
fn canon<'a>(matches: &ArgMatches<'a>) -> Option<ClientCommand<'a>>
    ensures { option_map read_as result ≡ command_in Form.Canon (rows_of (found_of matches.now)) }
{
    Some(ClientCommand::Canon(file_name(matches, "in")?, file_name(matches, "out")?))
}

/// `merge` with the values of its arguments.
fn merge<'a>(matches: &ArgMatches<'a>) -> Option<ClientCommand<'a>>
    ensures { option_map read_as result ≡ command_in Form.Merge (rows_of (found_of matches.now)) }
{
    Some(ClientCommand::Merge(
        file_name(matches, "a")?,
        file_name(matches, "b")?,
        file_name(matches, "out")?,
    ))
}

/// `prune` with the values of its arguments.
fn prune<'a>(matches: &ArgMatches<'a>) -> Option<ClientCommand<'a>>
    ensures { option_map read_as result ≡ command_in Form.Prune (rows_of (found_of matches.now)) }
{
    Some(ClientCommand::Prune(file_name(matches, "in")?, file_name(matches, "out")?))
}

/// `sample` with the value of its argument.
fn sample<'a>(matches: &ArgMatches<'a>) -> Option<ClientCommand<'a>>
    ensures { option_map read_as result ≡ command_in Form.Sample (rows_of (found_of matches.now)) }
{
    Some(ClientCommand::Sample(sampling(value(matches, "paths")?)?))
}

/// What the words ask for, where they are of a command's form.
pub fn read_words<'a>(alloc: Global, words: &'a [String]) -> Result<ClientCommand<'a>, WordsError>
    ensures { MatchResult result (λ c. command_of (map string_bytes words.entry.now) ≡ Some (read_as c))
        (λ e. e ≡ WordsError.Usage → command_of (map string_bytes words.entry.now) ≡ None) }
{
    let Some(word) = words.first() else {
        return Err(WordsError::Usage);
    };
    let Some(form) = Form::of(word) else {
        return Err(WordsError::Usage);
    };
    read_form(alloc, form, words)
}

/// What the words ask for, of which the first is the command's.
fn read_form<'a>(
    alloc: Global,
    form: Form,
    words: &'a [String],
) -> Result<ClientCommand<'a>, WordsError>
    ensures { MatchResult result (λ c. asked_by form (map string_bytes words.entry.now) ≡ Some (read_as c))
        (λ e. e ≡ WordsError.Usage → asked_by form (map string_bytes words.entry.now) ≡ None) }
{
    let matches = read_arguments(alloc, form.word(), form.arguments(), words)?;
    let found = form.command_in(alloc, &matches)?;
    match found {
        Some(command) => Ok(command),
        None => Err(WordsError::Usage),
    }
}
