//! How words are read: an option by option parse, and our own tests of what its values say.
ghost use Rattle.std.specs.Prelude.{◌≡◌, ◌≤◌, ◌<◌, ◌^◌, ◌⊎◌, ℕ, IfOk, MatchOption, Option, codes, false, map, option_map, string_bytes};
ghost use Rattle.std.specs.List.{list_any};
ghost use Rattle.std.specs.Str.{bytes_eq};
ghost use Rattle.clap.specs.Walk.{rule_of};
ghost use Rattle.clap.specs.Simple.{app_of};
ghost use Rattle.command_line.specs.CommandLine.{Writes, IsNumber, IsShown, IsDemo, Means};
ghost use Rattle.command_line.specs.Parsed.{option_rule, words_app, Parses, TextsSet};

use crate::words::{ShowWhat, Words, WordsFault};
use clap::error::ErrorKind;
use clap::{Arg, ArgAction, Command};
use std::alloc::{AllocError, Global};

// The values of the options, as text.
#[derive(Clone, Copy)]
pub(crate) struct Texts<'a> {
    pub trees: Option<&'a str>,
    pub workers: Option<&'a str>,
    pub show: Option<&'a str>,
    pub demo: Option<&'a str>,
}

fn option<'a>(alloc: Global, name: &'static str) -> Arg<'a>
    ensures rule { rule_of result ≡ option_rule name.now }
    ensures local { result.global ≡ false }
{
    Arg::new(alloc, name).long(name).action(ArgAction::Set)
}

fn command<'a>(alloc: Global) -> Result<Command<'a>, AllocError>
    ensures { IfOk result (λ c. app_of c ≡ words_app) }
{
    let bare = Command::new(alloc, "peano")
        .no_binary_name(true)
        .disable_help_flag(true)
        .disable_version_flag(true);
    let trees = option(alloc, "trees");
    let workers = option(alloc, "workers");
    let show = option(alloc, "show");
    let demo = option(alloc, "demo");
    Ok(bare.arg(trees)?.arg(workers)?.arg(show)?.arg(demo)?)
}

// The values that the words give to the options.
fn found_texts<'a>(alloc: Global, words: &'a [String]) -> Result<Texts<'a>, WordsFault>
    ensures { Parses (map string_bytes words.entry.now) result }
{
    let Ok(command) = command(alloc) else {
        return Err(WordsFault::NoMemory);
    };
    match command.try_get_matches_from(words) {
        Ok(matches) => Ok(Texts {
            trees: matches.get_str("trees"),
            workers: matches.get_str("workers"),
            show: matches.get_str("show"),
            demo: matches.get_str("demo"),
        }),
        Err(e) => Err(if e.kind() == ErrorKind::OutOfMemory {
            WordsFault::NoMemory
        } else {
            WordsFault::Usage
        }),
    }
}

// The number that a text writes.
fn number(text: &str) -> Option<u64>
    ensures { MatchOption result ((n : ℕ) → ¬ Writes text.now n) (Writes text.now) }
{
    let bytes = text.as_bytes();
    if bytes.is_empty() || bytes.len() > 19 || bytes[0] == b'+' {
        return None;
    }
    text.parse::<u64>().ok()
}

// The number of an option, from `least` to `greatest`.
fn number_within(text: Option<&str>, otherwise: u32, least: u32, greatest: u32) -> Option<u32>
    ensures { MatchOption result
        ((n : ℕ) → ¬ IsNumber otherwise least greatest (option_map (λ s. s.now) text.entry) n)
        (IsNumber otherwise least greatest (option_map (λ s. s.now) text.entry)) }
{
    let Some(text) = text else {
        return Some(otherwise);
    };
    match number(text) {
        Some(n) if n >= least as u64 && n <= greatest as u64 => Some(n as u32),
        _ => None,
    }
}

// What is shown.
fn shown(text: Option<&str>) -> Option<ShowWhat>
    ensures { MatchOption result
        ((what : ShowWhat) → ¬ IsShown (option_map (λ s. s.now) text.entry) what)
        (IsShown (option_map (λ s. s.now) text.entry)) }
{
    match text {
        None | Some("fields") => Some(ShowWhat::Fields),
        Some("traffic") => Some(ShowWhat::Traffic),
        Some("all") => Some(ShowWhat::All),
        Some(_) => None,
    }
}

// The number of the demonstration, where one is asked for.
#[tactic(auto, using(crate::proofs::Numbers::written_fits))]
fn demonstration(text: Option<&str>) -> Option<Option<u64>>
    ensures { MatchOption result ((n : Option ℕ) → ¬ IsDemo (option_map (λ s. s.now) text.entry) n)
        (IsDemo (option_map (λ s. s.now) text.entry)) }
{
    match text {
        None => Some(None),
        Some(text) => Some(Some(number(text)?)),
    }
}

// The settings that the texts mean.
fn settings(texts: &Texts) -> Option<Words>
    ensures { MatchOption result ((w : Words) → ¬ TextsSet texts.now w) (TextsSet texts.now) }
{
    if texts.show.is_some() && texts.demo.is_some() {
        return None;
    }
    let trees = number_within(texts.trees, 1, 1, 64)?;
    let workers = number_within(texts.workers, 0, 0, 16)?;
    let show = shown(texts.show)?;
    let demo = demonstration(texts.demo)?;
    Some(Words {
        trees,
        workers,
        show,
        demo,
    })
}

// Some word is `--`.
fn has_hyphens(words: &[String]) -> bool
    ensures { result ≡ list_any (λ s. bytes_eq (string_bytes s) (codes "--")) words.now }
{
    words.iter().any(|word| word.as_str() == "--")
}

/// The settings that the words of a command line mean.
pub fn read_words(alloc: Global, words: &[String]) -> Result<Words, WordsFault>
    // An answer is what the words mean.
    ensures ok { IfOk result (Means (map string_bytes words.now)) }
    // Words are refused only where they mean nothing.
    ensures usage { result ≡ Err WordsFault.Usage → (w : Words)
        → ¬ Means (map string_bytes words.now) w }
    // Words that mean something are answered so, unless memory runs out.
    ensures accepted { (w : Words) → Means (map string_bytes words.now) w
        → (result ≡ Ok w) ⊎ (result ≡ Err WordsFault.NoMemory) }
{
    if has_hyphens(words) {
        return Err(WordsFault::Usage);
    }
    let texts = found_texts(alloc, words)?;
    match settings(&texts) {
        Some(words) => Ok(words),
        None => Err(WordsFault::Usage),
    }
}
