//! The words of the command line.
ghost use Rattle.std.specs.Prelude.{◌≡◌, ◌≢◌, None, Some, map, string_bytes, true, IfErr, IfOk, MatchResult};
ghost use Rattle.std.specs.Option.{option_map};
ghost use Rattle.clap.specs.Words.{app_of, found_of, matches_of, rows_of};
ghost use Rattle.ots_archive_words.specs.Names.{AreFew};
ghost use Rattle.ots_archive_words.specs.Words.{app_for, asked_by, asking_in, asking_of, command_in, command_of};
ghost use Rattle.ots_archive_words.specs.Words.{drafting_in, drafting_of, form_of, read_as, read_asking};
ghost use Rattle.ots_archive_words.specs.Words.{read_drafting, read_names, read_taking, taking_in, taking_of};
ghost use Rattle.ots_arguments.specs.Arguments.{is_taken};

use crate::arguments::{any_number, flag, is_given, names_or_sums, optional, positional, required};
use crate::command::{ArchiveCommand, Asking, Drafting, Taking};
use crate::limits::MAX_WANTED;
use crate::names::Names;
use clap::error::ErrorKind;
use clap::{ArgMatches, Command};
use ots_arguments::{WordsError, file_name, number_of, value};
use std::alloc::{AllocError, Global};

/// What the words after the program's name ask for, where they are of a command's form.
///
/// # Errors
///
/// [`WordsError::Usage`] where the words are of no command's form, also where they call for help;
/// [`WordsError::OutOfMemory`] where memory ran out.
pub fn read_words<'a>(alloc: Global, words: &'a [String]) -> Result<ArchiveCommand<'a>, WordsError>
    ensures { MatchResult result (λ c. command_of (map string_bytes words.entry.now) ≡ Some (read_as c))
        (λ e. e ≡ WordsError.Usage → command_of (map string_bytes words.entry.now) ≡ None) }
{
    let Some(word) = words.first() else {
        return Err(WordsError::Usage);
    };
    let Some(form) = Form::of(word) else {
        return Err(WordsError::Usage);
    };
    read_form(alloc, form, words)
}

/// What the words ask for, of which the first is the command's.
fn read_form<'a>(
    alloc: Global,
    form: Form,
    words: &'a [String],
) -> Result<ArchiveCommand<'a>, WordsError>
    ensures { MatchResult result (λ c. asked_by form (map string_bytes words.entry.now) ≡ Some (read_as c))
        (λ e. e ≡ WordsError.Usage → asked_by form (map string_bytes words.entry.now) ≡ None) }
{
    let matches = read_arguments(alloc, form, words)?;
    let found = form.command_in(alloc, &matches)?;
    match found {
        Some(command) => Ok(command),
        None => Err(WordsError::Usage),
    }
}

/// What `clap` makes of the words for a command. The first word stands for the command itself.
fn read_arguments<'a>(
    alloc: Global,
    form: Form,
    words: &'a [String],
) -> Result<ArgMatches<'a>, WordsError>
    ensures taken { IfOk result (λ m. is_taken (app_for form) (map string_bytes words.entry.now) ≡ true) }
    ensures values { IfOk result (λ m. rows_of (found_of m)
        ≡ matches_of (app_for form) (map string_bytes words.entry.now)) }
    ensures refused { IfErr result (λ e. e ≡ WordsError.Usage
        → is_taken (app_for form) (map string_bytes words.entry.now) ≢ true) }
{
    let command = form.to_clap(alloc)?;
    match command.try_get_matches_from(words) {
        Ok(matches) => Ok(matches),
        Err(error) => match error.kind() {
            ErrorKind::OutOfMemory => Err(WordsError::OutOfMemory),
            _ => Err(WordsError::Usage),
        },
    }
}

/// The commands by their first words.
#[derive(Clone, Copy)]
enum Form {
    Draft,
    Ask,
    Take,
}

impl Form {
    /// The command with this word.
    fn of(word: &str) -> Option<Form>
        ensures { result ≡ form_of word.now }
    {
        match word {
            "draft" => Some(Form::Draft),
            "ask" => Some(Form::Ask),
            "take" => Some(Form::Take),
            _ => None,
        }
    }

    /// The command with its arguments, for `clap`.
    fn to_clap<'a>(self, alloc: Global) -> Result<Command<'a>, AllocError>
        ensures { IfOk result (λ c. app_of c ≡ app_for self) }
    {
        match self {
            Form::Draft => draft(alloc),
            Form::Ask => ask(alloc),
            Form::Take => take(alloc),
        }
    }

    /// The command with the values that the words give its arguments.
    fn command_in<'a>(
        self,
        alloc: Global,
        matches: &ArgMatches<'a>,
    ) -> Result<Option<ArchiveCommand<'a>>, AllocError>
        ensures { IfOk result (λ found. option_map read_as found ≡ command_in self (rows_of (found_of matches.now))) }
    {
        match self {
            Form::Draft => Ok(drafting(alloc, matches)?.map(ArchiveCommand::Draft)),
            Form::Ask => Ok(asking(alloc, matches)?.map(ArchiveCommand::Ask)),
            Form::Take => Ok(taking(alloc, matches)?.map(ArchiveCommand::Take)),
        }
    }
}

/// `draft --calendars LIST FILE..`, or with `--sums SUMS` in the place of the files.
fn draft<'a>(alloc: Global) -> Result<Command<'a>, AllocError>
    ensures { IfOk result (λ c. app_of c ≡ app_for Form.Draft) }
{
    Command::new(alloc, "draft")
        .arg(required(alloc, "calendars"))?
        .arg(optional(alloc, "sums"))?
        .arg(any_number(alloc, "names"))
}

/// `ask --calendars LIST --all SHEET PROOF..`, or without `--all`, or with `--sums SUMS` in the place of the proofs.
fn ask<'a>(alloc: Global) -> Result<Command<'a>, AllocError>
    ensures { IfOk result (λ c. app_of c ≡ app_for Form.Ask) }
{
    Command::new(alloc, "ask")
        .arg(required(alloc, "calendars"))?
        .arg(flag(alloc, "all"))?
        .arg(optional(alloc, "sums"))?
        .arg(positional(alloc, "sheet"))?
        .arg(any_number(alloc, "names"))
}

/// `take --min M --into FOLDER REPLIES PROOF..`, or with `--sums SUMS` in the place of the proofs.
fn take<'a>(alloc: Global) -> Result<Command<'a>, AllocError>
    ensures { IfOk result (λ c. app_of c ≡ app_for Form.Take) }
{
    Command::new(alloc, "take")
        .arg(required(alloc, "min"))?
        .arg(required(alloc, "into"))?
        .arg(optional(alloc, "sums"))?
        .arg(positional(alloc, "replies"))?
        .arg(any_number(alloc, "names"))
}

/// What `draft` is to do, by the values of its arguments.
fn drafting<'a>(alloc: Global, matches: &ArgMatches<'a>) -> Result<Option<Drafting<'a>>, AllocError>
    ensures { IfOk result (λ found. option_map read_drafting found ≡ drafting_in (rows_of (found_of matches.now))) }
{
    match names_or_sums(alloc, matches)? {
        Some(names) => Ok(drafting_of(matches, names)),
        None => Ok(None),
    }
}

/// What `draft` is to do with these files.
fn drafting_of<'a>(matches: &ArgMatches<'a>, names: Names<'a>) -> Option<Drafting<'a>>
    requires { AreFew names }
    ensures { option_map read_drafting result ≡ drafting_of (rows_of (found_of matches.now)) (read_names names.entry) }
{
    Some(Drafting {
        calendars: value(matches, "calendars")?,
        names,
    })
}

/// What `ask` is to do, by the values of its arguments.
fn asking<'a>(alloc: Global, matches: &ArgMatches<'a>) -> Result<Option<Asking<'a>>, AllocError>
    ensures { IfOk result (λ found. option_map read_asking found ≡ asking_in (rows_of (found_of matches.now))) }
{
    match names_or_sums(alloc, matches)? {
        Some(names) => Ok(asking_of(matches, names)),
        None => Ok(None),
    }
}

/// What `ask` is to do with these proofs.
fn asking_of<'a>(matches: &ArgMatches<'a>, names: Names<'a>) -> Option<Asking<'a>>
    requires { AreFew names }
    ensures { option_map read_asking result ≡ asking_of (rows_of (found_of matches.now)) (read_names names.entry) }
{
    Some(Asking {
        calendars: value(matches, "calendars")?,
        all: is_given(matches, "all"),
        sheet: file_name(matches, "sheet")?,
        names,
    })
}

/// What `take` is to do, by the values of its arguments.
fn taking<'a>(alloc: Global, matches: &ArgMatches<'a>) -> Result<Option<Taking<'a>>, AllocError>
    ensures { IfOk result (λ found. option_map read_taking found ≡ taking_in (rows_of (found_of matches.now))) }
{
    match names_or_sums(alloc, matches)? {
        Some(names) => Ok(taking_of(matches, names)),
        None => Ok(None),
    }
}

/// What `take` is to do with these proofs.
fn taking_of<'a>(matches: &ArgMatches<'a>, names: Names<'a>) -> Option<Taking<'a>>
    requires { AreFew names }
    ensures { option_map read_taking result ≡ taking_of (rows_of (found_of matches.now)) (read_names names.entry) }
{
    Some(Taking {
        least: number_of(matches, "min", 1, MAX_WANTED)? as u32,
        into: file_name(matches, "into")?,
        replies: file_name(matches, "replies")?,
        names,
    })
}
