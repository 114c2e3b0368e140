//! The reading of the words: clap matches them, then each value is read.
ghost use Rattle.std.specs.Prelude.{◌≡◌, [], ◌∷◌, Option, Some, codes, is_none, map, IfOk, IfSome};
ghost use Rattle.std.specs.List.{list_all};
ghost use Rattle.clap.specs.Words.{first_value, found_of, kind_of};
ghost use Rattle.it_settings.specs.ValuesViews.{AreTexts, texts_of};
ghost use Rattle.it_settings.specs.declared.types.Settings.TheVariants as settings;
ghost use Rattle.it_settings.specs.ErrorKinds.{IsFaultOf};
ghost use Rattle.it_settings.specs.Settings.{answer_of, bench_of, check_of, outer_of, report_in, runs_of, settings_by, settings_of, without, without_report, TellsReading, AreInRange};

use crate::command::parse;
use crate::numbers::{format_or, names_or, number_or, pivots_or, rows_or, run_or, tries_or};
use crate::types::{Settings, WordsFault};
use clap::error::ErrorKind;
use clap::{ArgMatches, Error};
use std::alloc::Global;

/// The texts of the mode and of each option that was given.
#[derive(Clone, Copy)]
struct Values<'a> {
    mode: Option<&'a str>,
    format: Option<&'a str>,
    pivots: Option<&'a str>,
    rows: Option<&'a str>,
    tries: Option<&'a str>,
    seed: Option<&'a str>,
    count: Option<&'a str>,
    run: Option<&'a str>,
    names: Option<&'a str>,
    report: Option<&'a str>,
}

/// The values that clap matched.
fn matched_values<'a>(matches: &ArgMatches<'a>) -> Values<'a>
    ensures { AreTexts (first_value (found_of matches.now)) result }
{
    Values {
        mode: matches.get_str("mode"),
        format: matches.get_str("format"),
        pivots: matches.get_str("pivots"),
        rows: matches.get_str("rows"),
        tries: matches.get_str("tries"),
        seed: matches.get_str("seed"),
        count: matches.get_str("count"),
        run: matches.get_str("run"),
        names: matches.get_str("names"),
        report: matches.get_str("report"),
    }
}

/// Whether a report is asked for.
fn has_report(values: Values) -> bool
    ensures { result ≡ report_in (texts_of values.entry) }
{
    values.report == Some("true")
}

/// `read`, the settings of a mode that has no reports; `None` if a report is asked for.
fn without_report(values: Values, read: Option<Settings>) -> Option<Settings>
    requires { IfSome read AreInRange }
    ensures reads { result ≡ without_report (texts_of values.entry) read }
    ensures ranges { IfSome result AreInRange }
{
    if has_report(values) { None } else { read }
}

/// The settings of mode `answer`.
#[tactic(auto, unfolding(crate::specs::Settings::answer_of))]
fn answer(values: Values) -> Option<Settings>
    ensures reads { result ≡ without (texts_of values.entry) (codes "seed" ∷ codes "count" ∷ []) (answer_of (texts_of values.entry)) }
    ensures ranges { IfSome result AreInRange }
{
    if values.seed.is_some() || values.count.is_some() {
        return None;
    }
    let format = format_or(values.format)?;
    let run = run_or(values.run)?;
    let pivots = pivots_or(values.pivots)?;
    let rows = rows_or(values.rows)?;
    let tries = tries_or(values.tries)?;
    let names = names_or(values.names)?;
    Some(Settings::Answer {
        format,
        run,
        pivots,
        rows,
        tries,
        names,
    })
}

/// The settings of mode `check`, which has no option but `--names`.
fn check(values: Values) -> Option<Settings>
    ensures reads { result ≡ check_of (texts_of values.entry) }
    ensures ranges { IfSome result AreInRange }
{
    let none = values.format.is_none()
        && values.pivots.is_none()
        && values.rows.is_none()
        && values.tries.is_none()
        && values.seed.is_none()
        && values.count.is_none()
        && values.run.is_none();
    if !none {
        return None;
    }
    let names = names_or(values.names)?;
    Some(Settings::Check { names })
}

/// The settings of mode `bench`.
#[tactic(auto, unfolding(crate::specs::Settings::bench_of))]
fn bench(values: Values) -> Option<Settings>
    ensures reads { result ≡ without (texts_of values.entry) (codes "format" ∷ codes "names" ∷ []) (bench_of (texts_of values.entry)) }
    ensures ranges { IfSome result AreInRange }
{
    if values.format.is_some() || values.names.is_some() {
        return None;
    }
    let seed = number_or(values.seed, 0, 2147483647, 1)?;
    let count = number_or(values.count, 1, 1000, 100)?;
    let run = run_or(values.run)?;
    let pivots = pivots_or(values.pivots)?;
    let rows = rows_or(values.rows)?;
    let tries = tries_or(values.tries)?;
    Some(Settings::Bench {
        seed,
        count,
        run,
        pivots,
        rows,
        tries,
    })
}

/// Whether no option was given but `--run`, `--pivots`, `--names` and `--report`.
fn has_runs_alone(values: Values) -> bool
    ensures { result ≡ list_all (λ name. is_none (texts_of values.entry name)) (codes "format" ∷ codes "rows" ∷ codes "tries" ∷ codes "seed" ∷ codes "count" ∷ []) }
{
    values.format.is_none()
        && values.rows.is_none()
        && values.tries.is_none()
        && values.seed.is_none()
        && values.count.is_none()
}

/// The settings of mode `copy`.
#[tactic(auto, unfolding(crate::specs::Settings::runs_of))]
fn copy(values: Values) -> Option<Settings>
    ensures reads { result ≡ runs_of (texts_of values.entry) (settings.Copy (report_in (texts_of values.entry))) }
    ensures ranges { IfSome result AreInRange }
{
    if !has_runs_alone(values) {
        return None;
    }
    let run = run_or(values.run)?;
    let pivots = pivots_or(values.pivots)?;
    let names = names_or(values.names)?;
    let report = has_report(values);
    Some(Settings::Copy {
        report,
        run,
        pivots,
        names,
    })
}

/// The settings of mode `best`.
#[tactic(auto, unfolding(crate::specs::Settings::runs_of))]
fn best(values: Values) -> Option<Settings>
    ensures reads { result ≡ runs_of (texts_of values.entry) (settings.Best (report_in (texts_of values.entry))) }
    ensures ranges { IfSome result AreInRange }
{
    if !has_runs_alone(values) {
        return None;
    }
    let run = run_or(values.run)?;
    let pivots = pivots_or(values.pivots)?;
    let names = names_or(values.names)?;
    let report = has_report(values);
    Some(Settings::Best {
        report,
        run,
        pivots,
        names,
    })
}

/// The settings of mode `outer`.
#[tactic(auto, unfolding(crate::specs::Settings::outer_of))]
fn outer(values: Values) -> Option<Settings>
    ensures reads { result ≡ outer_of (texts_of values.entry) }
    ensures ranges { IfSome result AreInRange }
{
    if values.format.is_some() || values.seed.is_some() || values.count.is_some() {
        return None;
    }
    let run = run_or(values.run)?;
    let pivots = pivots_or(values.pivots)?;
    let rows = rows_or(values.rows)?;
    let tries = tries_or(values.tries)?;
    let names = names_or(values.names)?;
    let report = has_report(values);
    Some(Settings::Outer {
        report,
        run,
        pivots,
        rows,
        tries,
        names,
    })
}

/// The settings of mode `sharing`.
#[tactic(auto, unfolding(crate::specs::Settings::runs_of))]
fn sharing(values: Values) -> Option<Settings>
    ensures reads { result ≡ runs_of (texts_of values.entry) (settings.Sharing (report_in (texts_of values.entry))) }
    ensures ranges { IfSome result AreInRange }
{
    if !has_runs_alone(values) {
        return None;
    }
    let run = run_or(values.run)?;
    let pivots = pivots_or(values.pivots)?;
    let names = names_or(values.names)?;
    let report = has_report(values);
    Some(Settings::Sharing {
        report,
        run,
        pivots,
        names,
    })
}

/// The settings of the mode that was given.
#[tactic(auto, unfolding(crate::specs::Settings::settings_by))]
fn settings_by_mode(values: Values) -> Option<Settings>
    ensures reads { result ≡ settings_by (texts_of values.entry) }
    ensures ranges { IfSome result AreInRange }
{
    match values.mode {
        Some("answer") => without_report(values, answer(values)),
        Some("check") => without_report(values, check(values)),
        Some("bench") => without_report(values, bench(values)),
        Some("copy") => copy(values),
        Some("best") => best(values),
        Some("outer") => outer(values),
        Some("sharing") => sharing(values),
        _ => None,
    }
}

/// The settings of the values that clap matched.
#[tactic(auto, using(crate::proofs::ReadingLemmas::same_settings))]
fn matched_settings(matches: &ArgMatches) -> Option<Settings>
    ensures reads { result ≡ settings_by (first_value (found_of matches.now)) }
    ensures ranges { IfSome result AreInRange }
{
    settings_by_mode(matched_values(matches))
}

/// The fault of the words that an error of clap means.
fn fault(error: Error) -> WordsFault
    ensures { IsFaultOf (kind_of error) result }
{
    if error.kind() == ErrorKind::OutOfMemory {
        WordsFault::Memory
    } else {
        WordsFault::Usage
    }
}

/// The settings that `words`, those after the program's name, give. `Usage` if they have no reading; `Memory` if allocation fails.
pub fn settings(alloc: Global, words: &[&str]) -> Result<Settings, WordsFault>
    ensures reads { TellsReading (settings_of (map (λ w. w.now) words.now)) result }
    ensures ranges { IfOk result AreInRange }
{
    match parse(alloc, words) {
        Ok(matches) => match matched_settings(&matches) {
            Some(settings) => Ok(settings),
            None => Err(WordsFault::Usage),
        },
        Err(error) => Err(fault(error)),
    }
}
