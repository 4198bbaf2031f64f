//! Reading the words of commands that have options.
ghost use Rattle.std.specs.Prelude.{◌≡◌, ◌≤◌, None, Some, false, IfOk, IfErr, ⊤};
ghost use Rattle.clap.specs.Words.{found_of, rows_of, rule_of};
ghost use Rattle.clap.specs.declared.builder.value_parser.ValueParser.TheVariants.{Unsigned};
ghost use Rattle.cov_words.specs.Asked as spec;
ghost use Rattle.cov_words.specs.Asked.{check_app, check_from, form_named, number_of, report_app, report_from};
ghost use Rattle.cov_words.specs.Simple.{check_is_simple, report_is_simple};

use crate::asking::Asking;
use crate::reading::{value, wanted};
use crate::{Command, Form, WordsFault};
use clap::builder::ValueParser;
use clap::{Arg, ArgMatches};
use cov_percent::Percent;
use std::alloc::{AllocError, Global};

/// An option that has this value where it isn't given.
pub(crate) fn option<'a>(alloc: Global, name: &'a str, value: &'a str) -> Arg<'a>
    ensures rule { rule_of result ≡ spec.option name.entry.now value.entry.now }
    ensures local { result.global ≡ false }
{
    Arg::new(alloc, name).long(name).default_value(value)
}

/// Whole numbers in bounds.
pub(crate) fn bounded<'a>(least: u32, most: u32) -> ValueParser<'a>
    ensures { result ≡ Unsigned least most }
{
    clap::value_parser!(u64).range(least as i64..=most as i64)
}

/// An option whose value is a whole number in bounds, and this one where it isn't given.
pub(crate) fn number<'a>(
    alloc: Global,
    name: &'a str,
    least: u32,
    most: u32,
    value: &'a str,
) -> Arg<'a>
    ensures rule { rule_of result ≡ spec.number least most name.entry.now value.entry.now }
    ensures local { result.global ≡ false }
{
    option(alloc, name, value).value_parser(bounded(least, most))
}

/// An option whose value is a percentage, and 0 where it isn't given.
fn percent<'a>(alloc: Global, name: &'a str) -> Arg<'a>
    ensures rule { rule_of result ≡ spec.percent name.entry.now }
    ensures local { result.global ≡ false }
{
    number(alloc, name, 0, 100, "0")
}

/// The whole number in these bounds that an option has.
pub(crate) fn number_in(
    matches: &ArgMatches<'_>,
    name: &str,
    least: u64,
    most: u64,
) -> Result<u64, WordsFault>
    ensures ok { IfOk result (λ n. number_of least most name.now (rows_of (found_of matches.now))
        ≡ Some n) }
    ensures usage { IfErr result (λ fault. fault ≡ WordsFault.Usage
        → number_of least most name.now (rows_of (found_of matches.now)) ≡ None) }
    ensures within { IfOk result (λ n. (least ≤ n) × (n ≤ most)) }
{
    let Some(number) = matches.get_one::<u64>(name) else {
        return Err(WordsFault::Usage);
    };
    if number < least {
        return Err(WordsFault::Usage);
    }
    if number > most {
        return Err(WordsFault::Usage);
    }
    Ok(number)
}

/// The form of this name.
pub(crate) fn form_of(name: &str) -> Result<Form, WordsFault>
    ensures ok { IfOk result (λ form. form_named name.now ≡ Some form) }
    ensures usage { IfErr result (λ fault. form_named name.now ≡ None) }
{
    if name == "json" {
        Ok(Form::Json)
    } else if name == "lcov" {
        Ok(Form::Lcov)
    } else if name == "text" {
        Ok(Form::Text)
    } else {
        Err(WordsFault::Usage)
    }
}

/// `report FOLDER --as FORM`, where the form is `json`, `lcov` or `text`, and `text` where it isn't given.
pub(crate) struct ReportWords;

impl Asking for ReportWords {
    type Told = Command;

    ghost app = { report_app };

    ghost from = { report_from };

    ghost within = { λ _. ⊤ };

    ghost simple = { report_is_simple };

    fn command<'a>(alloc: Global) -> Result<clap::Command<'a>, AllocError> {
        let command = clap::Command::new(alloc, "report").arg(wanted(alloc, "folder"))?;
        command.arg(option(alloc, "as", "text"))
    }

    fn told(alloc: Global, matches: &ArgMatches<'_>) -> Result<Command, WordsFault> {
        let folder = match value(alloc, matches, "folder") {
            Ok(folder) => folder,
            Err(fault) => return Err(fault),
        };
        let name = match value(alloc, matches, "as") {
            Ok(name) => name,
            Err(fault) => return Err(fault),
        };
        match form_of(name.as_text()) {
            Ok(form) => Ok(Command::Report { folder, form }),
            Err(fault) => Err(fault),
        }
    }
}

/// `check FOLDER --lines N --branches N --functions N`, each from 0 to 100, and 0 where it isn't given.
pub(crate) struct CheckWords;

impl Asking for CheckWords {
    type Told = Command;

    ghost app = { check_app };

    ghost from = { check_from };

    ghost within = { λ _. ⊤ };

    ghost simple = { check_is_simple };

    fn command<'a>(alloc: Global) -> Result<clap::Command<'a>, AllocError> {
        let command = clap::Command::new(alloc, "check").arg(wanted(alloc, "folder"))?;
        let command = command.arg(percent(alloc, "lines"))?;
        let command = command.arg(percent(alloc, "branches"))?;
        command.arg(percent(alloc, "functions"))
    }

    fn told(alloc: Global, matches: &ArgMatches<'_>) -> Result<Command, WordsFault> {
        let folder = match value(alloc, matches, "folder") {
            Ok(folder) => folder,
            Err(fault) => return Err(fault),
        };
        let lines = match number_in(matches, "lines", 0, 100) {
            Ok(lines) => lines,
            Err(fault) => return Err(fault),
        };
        let branches = match number_in(matches, "branches", 0, 100) {
            Ok(branches) => branches,
            Err(fault) => return Err(fault),
        };
        match number_in(matches, "functions", 0, 100) {
            Ok(functions) => Ok(Command::Check {
                folder,
                lines: Percent::new(lines),
                branches: Percent::new(branches),
                functions: Percent::new(functions),
            }),
            Err(fault) => Err(fault),
        }
    }
}
