//! `solve DECK`, with options behind the deck in any order.

ghost use Rattle.std.specs.Prelude.{◌≡◌, ◌&&◌, bytes_eq, codes, true, false, map, is_some, option_map, string_bytes, IfOk, IfErr, IfSome, Some};
ghost use Rattle.clap.specs.Words.{app_of, found_of, kind_of, rule_of};
ghost use Rattle.um_words.specs.ClapCommands.{option_rule, solve_command};
ghost use Rattle.um_words.specs.Faults.{OrMemory, Reads};
ghost use Rattle.um_words.specs.Words.{are_options, is_plain};
ghost use Rattle.um_words.specs.SolveWords.{solve_of, solve_options, solve_said, solve_words, numbers_said, line_of, SolveLine, FoundSolve};
ghost use Rattle.um_words.specs.declared.job.WordFault.TheVariants as fault;

use crate::files::{file_name, optional_name};
use crate::job::{Job, SolveWords, WordFault};
use crate::values::number_asked;
use crate::words::{are_options, is_plain};
use clap::error::ErrorKind;
use clap::{Arg, ArgMatches, Command, Error};
use std::alloc::{AllocError, Global};

/// The options that may stand behind the deck. A word in this list opens an option.
const OPTIONS: [&str; 3] = ["--nodes", "--pivots", "--tree"];

/// The most nodes and pivots that may be asked for, and what a search has that is not told how many.
const MOST_SOLVED_NODES: u64 = 100_000;

const MOST_PIVOTS: u64 = 10_000_000;

/// The words of the command: its files, and the numbers as they are written.
#[derive(Clone, Copy, PartialEq, Eq, Debug)]
pub(crate) struct SolveFiles<'w> {
    pub deck: &'w str,
    pub nodes: Option<&'w str>,
    pub pivots: Option<&'w str>,
    pub tree: Option<&'w str>,
}

/// The numbers, each in its range.
#[derive(Clone, Copy, PartialEq, Eq, Debug)]
pub(crate) struct SolveNumbers {
    pub nodes: u32,
    pub pivots: u64,
}

/// The job of the words, where they are this command.
pub(crate) fn read(alloc: Global, words: &[String]) -> Result<Option<Job>, WordFault>
    ensures { Reads (solve_words (map string_bytes words.now)) result }
{
    if !is_line(words) {
        return Ok(None);
    }
    let Ok(files) = parsed(alloc, words) else {
        return Err(WordFault::Memory);
    };
    let job = job_of(alloc, &files)?;
    Ok(Some(job))
}

/// Whether the words are a line of this command.
fn is_line(words: &[String]) -> bool
    ensures { result ≡ is_some (solve_of (map string_bytes words.now)) }
{
    let [command, deck, options @ ..] = words else {
        return false;
    };
    is_plain_line(command.as_str(), deck.as_str(), options)
}

fn is_plain_line(command: &str, deck: &str, options: &[String]) -> bool
    ensures { result ≡ (bytes_eq command.now (codes "solve") && is_plain deck.now && are_options solve_options (map string_bytes options.now)) }
{
    if command != "solve" {
        return false;
    }
    if !is_plain(deck) {
        return false;
    }
    are_options(OPTIONS.as_slice(), options)
}

/// The files and numbers that a line of this command names. The error is want of memory.
fn parsed(alloc: Global, words: &[String]) -> Result<SolveFiles<'_>, WordFault>
    requires { is_some (solve_of (map string_bytes words.now)) ≡ true }
    ensures ok { IfOk result (λ files. solve_of (map string_bytes words.now) ≡ Some (line_of files)) }
    ensures err { IfErr result (λ f. f ≡ fault.Memory) }
{
    let Ok(matches) = matches_of(alloc, words) else {
        return Err(WordFault::Memory);
    };
    match files_of(&matches) {
        Some(files) => Ok(files),
        None => Err(WordFault::Memory),
    }
}

/// What clap finds in a line of this command.
fn matches_of(alloc: Global, words: &[String]) -> Result<ArgMatches<'_>, Error>
    requires { is_some (solve_of (map string_bytes words.now)) ≡ true }
    ensures ok { IfOk result (λ m. IfSome (solve_of (map string_bytes words.now)) (FoundSolve (found_of m))) }
    ensures err { IfErr result (λ e. kind_of e ≡ ErrorKind.OutOfMemory) }
{
    let command = solve_command(alloc)?;
    command.try_get_matches_from(words)
}

/// The command with its file and its options.
fn solve_command<'a>(alloc: Global) -> Result<Command<'a>, AllocError>
    ensures { IfOk result (λ c. app_of c ≡ solve_command) }
{
    let deck = Arg::new(alloc, "deck");
    let nodes = option(alloc, "nodes");
    let pivots = option(alloc, "pivots");
    let tree = option(alloc, "tree");
    Command::new(alloc, "solve")
        .arg(deck)?
        .arg(nodes)?
        .arg(pivots)?
        .arg(tree)
}

/// An option with one value.
fn option<'a>(alloc: Global, name: &'a str) -> Arg<'a>
    ensures rule { rule_of result ≡ option_rule name.entry.now }
    ensures local { result.global ≡ false }
{
    Arg::new(alloc, name).long(name)
}

/// The files and numbers that were found, where the deck was.
fn files_of<'w>(matches: &ArgMatches<'w>) -> Option<SolveFiles<'w>>
    ensures { (line : SolveLine) → FoundSolve (found_of matches.now) line → option_map line_of result ≡ Some line }
{
    let Some(deck) = matches.get_str("deck") else {
        return None;
    };
    Some(SolveFiles {
        deck,
        nodes: matches.get_str("nodes"),
        pivots: matches.get_str("pivots"),
        tree: matches.get_str("tree"),
    })
}

fn job_of(alloc: Global, files: &SolveFiles<'_>) -> Result<Job, WordFault>
    ensures { OrMemory (solve_said (line_of files.now)) result }
{
    let numbers = numbers_of(files)?;
    let deck = file_name(alloc, files.deck)?;
    let tree = optional_name(alloc, files.tree)?;
    Ok(Job::Solve(SolveWords {
        deck,
        nodes: numbers.nodes,
        pivots: numbers.pivots,
        tree,
    }))
}

/// The numbers, or the first that is out of its range.
fn numbers_of(files: &SolveFiles<'_>) -> Result<SolveNumbers, WordFault>
    ensures { result ≡ numbers_said (line_of files.now) }
{
    let Some(nodes) = number_asked(files.nodes, MOST_SOLVED_NODES) else {
        return Err(WordFault::Nodes);
    };
    let Some(pivots) = number_asked(files.pivots, MOST_PIVOTS) else {
        return Err(WordFault::Pivots);
    };
    Ok(SolveNumbers {
        nodes: nodes as u32,
        pivots,
    })
}
