//! The commands of a script: the words of each, and its form. The table of commands is cut into seven parts, and each part has
//! two functions, which hand a word that is not theirs to those of the next part.
ghost use Rattle.std.specs.Prelude.{◌≡◌, ◌≤◌, map, option_map, unwrap_or, IfOk};
ghost use Rattle.script_read.specs.Commands.{from_graph, from_name, from_derive, from_pair, from_number, rest_commands, dues_among, dues_of, publish_form, checkout_form, form_among, form_at, form_of, command_of};
ghost use Rattle.script_read.specs.Dues.{due_of};
ghost use Rattle.script_read.specs.Faults.{Gives};
ghost use Rattle.script_read.specs.Words.{words_of, word_at, rest_in, number};

use crate::args::{Arg, check_words};
use crate::fault::{LineFault, LineWhy};
use crate::words::{nth_word, read_number, rest_from};
use crate::{Command, Form};
use column_types::{NoMemory, Text};
use std::alloc::Global;

/// How many snapshots a line may keep.
const MOST_KEEP: u64 = 64;

/// The greatest LONG: the greatest threshold of a line, and the greatest id of a snapshot.
const MOST_LONG: u64 = 9_223_372_036_854_775_807;

/// The command of a line.
#[tactic(auto, unfolding(crate::specs::Commands::command_of))]
pub fn read_command(alloc: Global, line: &str) -> Result<Command, LineFault>
    ensures { Gives result (command_of line.now) }
{
    let form = read_form(alloc, line)?;
    let line = Text::from_str(alloc, line)?;
    Ok(Command { line, form })
}

/// The form of a line.
fn read_form(alloc: Global, line: &str) -> Result<Form, LineFault>
    ensures { Gives result (form_of (words_of line.now)) }
{
    match args_of(nth_word(line, 0)) {
        Some(args) => {
            check_words(args, line)?;
            form_at(alloc, line)
        }
        None => Err(LineFault::Bad(LineWhy::Word)),
    }
}

/// What is due behind the first word of a command.
#[tactic(auto, unfolding(crate::specs::Commands::dues_among, crate::specs::Commands::lone_commands))]
fn args_of(word: &str) -> Option<&'static [Arg]>
    ensures { option_map (λ args. map due_of args.now) result ≡ dues_of word.now }
{
    match word {
        "open" | "close" | "columns" | "lines" | "discard" => Some(&[]),
        _ => args_with_graph(word),
    }
}

/// The same, among the commands with the name of a graph and in the parts behind them.
#[tactic(auto, unfolding(crate::specs::Commands::dues_among, crate::specs::Commands::graph_commands))]
fn args_with_graph(word: &str) -> Option<&'static [Arg]>
    ensures { option_map (λ args. map due_of args.now) result ≡ dues_among from_graph word.now }
{
    match word {
        "release" | "rows" | "snapshot" => Some(&[Arg::Name]),
        _ => args_with_name(word),
    }
}

/// The same, among the commands with the name of a source or of a line and in the parts behind them.
#[tactic(auto, unfolding(crate::specs::Commands::dues_among, crate::specs::Commands::name_commands))]
fn args_with_name(word: &str) -> Option<&'static [Arg]>
    ensures { option_map (λ args. map due_of args.now) result ≡ dues_among from_name word.now }
{
    match word {
        "show" | "unpublish" => Some(&[Arg::Name]),
        _ => args_of_derive(word),
    }
}

/// The same, among the commands that make a graph from another and in the parts behind them.
#[tactic(auto, unfolding(crate::specs::Commands::dues_among, crate::specs::Commands::derive_commands))]
fn args_of_derive(word: &str) -> Option<&'static [Arg]>
    ensures { option_map (λ args. map due_of args.now) result ≡ dues_among from_derive word.now }
{
    match word {
        "clone" | "transpose" | "undirect" | "simplify" | "sortdeg" | "build" => {
            Some(&[Arg::Name, Arg::Word("from"), Arg::Name])
        }
        _ => args_with_pair(word),
    }
}

/// The same, among the other commands with two names and in the parts behind them.
#[tactic(auto, unfolding(crate::specs::Commands::dues_among, crate::specs::Commands::pair_commands))]
fn args_with_pair(word: &str) -> Option<&'static [Arg]>
    ensures { option_map (λ args. map due_of args.now) result ≡ dues_among from_pair word.now }
{
    match word {
        "load" | "get" => Some(&[Arg::Name, Arg::Word("from"), Arg::Name]),
        _ => args_with_number(word),
    }
}

/// The same, among the commands with numbers and in the parts behind them.
#[tactic(auto, unfolding(crate::specs::Commands::dues_among, crate::specs::Commands::number_commands))]
fn args_with_number(word: &str) -> Option<&'static [Arg]>
    ensures { option_map (λ args. map due_of args.now) result ≡ dues_among from_number word.now }
{
    match word {
        "publish" => Some(&[
            Arg::Name,
            Arg::Word("as"),
            Arg::Name,
            Arg::Word("keep"),
            Arg::Number(1, MOST_KEEP),
            Arg::Word("threshold"),
            Arg::Number(1, MOST_LONG),
        ]),
        "checkout" => Some(&[
            Arg::Name,
            Arg::Word("at"),
            Arg::WordOrNumber("latest", 1, MOST_LONG),
        ]),
        _ => args_with_rest(word),
    }
}

/// The same, among the commands with a name and the rest of the line.
#[tactic(auto, unfolding(crate::specs::Commands::dues_among, crate::specs::Commands::rest_commands))]
fn args_with_rest(word: &str) -> Option<&'static [Arg]>
    ensures { option_map (λ args. map due_of args.now) result ≡ dues_among rest_commands word.now }
{
    match word {
        "change" => Some(&[Arg::Name, Arg::Rest]),
        _ => None,
    }
}

/// The form of a line by its first word, where its words are what is due.
#[tactic(auto, unfolding(crate::specs::Commands::form_among, crate::specs::Commands::lone_commands, crate::specs::Words::word_at))]
fn form_at(alloc: Global, line: &str) -> Result<Form, LineFault>
    ensures { Gives result (form_at (words_of line.now)) }
{
    match nth_word(line, 0) {
        "open" => Ok(Form::Open),
        "close" => Ok(Form::Close),
        "columns" => Ok(Form::Columns),
        "lines" => Ok(Form::Lines),
        "discard" => Ok(Form::Discard),
        _ => form_with_graph(alloc, line),
    }
}

/// The same, among the commands with the name of a graph and in the parts behind them.
#[tactic(auto, unfolding(crate::specs::Commands::form_among, crate::specs::Commands::graph_commands, crate::specs::Words::word_at))]
fn form_with_graph(alloc: Global, line: &str) -> Result<Form, LineFault>
    ensures { Gives result (form_among from_graph (words_of line.now)) }
{
    match nth_word(line, 0) {
        "release" => Ok(Form::Release(text_at(alloc, line, 1)?)),
        "rows" => Ok(Form::Rows(text_at(alloc, line, 1)?)),
        "snapshot" => Ok(Form::Snapshot(text_at(alloc, line, 1)?)),
        _ => form_with_name(alloc, line),
    }
}

/// The same, among the commands with the name of a source or of a line and in the parts behind them.
#[tactic(auto, unfolding(crate::specs::Commands::form_among, crate::specs::Commands::name_commands, crate::specs::Words::word_at))]
fn form_with_name(alloc: Global, line: &str) -> Result<Form, LineFault>
    ensures { Gives result (form_among from_name (words_of line.now)) }
{
    match nth_word(line, 0) {
        "show" => Ok(Form::Show(text_at(alloc, line, 1)?)),
        "unpublish" => Ok(Form::Unpublish(text_at(alloc, line, 1)?)),
        _ => form_of_derive(alloc, line),
    }
}

/// The same, among the commands that make a graph from another and in the parts behind them.
#[tactic(auto, unfolding(crate::specs::Commands::form_among, crate::specs::Commands::derive_commands, crate::specs::Words::word_at))]
fn form_of_derive(alloc: Global, line: &str) -> Result<Form, LineFault>
    ensures { Gives result (form_among from_derive (words_of line.now)) }
{
    match nth_word(line, 0) {
        "clone" => Ok(Form::Clone(text_at(alloc, line, 1)?, text_at(alloc, line, 3)?)),
        "transpose" => Ok(Form::Transpose(text_at(alloc, line, 1)?, text_at(alloc, line, 3)?)),
        "undirect" => Ok(Form::Undirect(text_at(alloc, line, 1)?, text_at(alloc, line, 3)?)),
        "simplify" => Ok(Form::Simplify(text_at(alloc, line, 1)?, text_at(alloc, line, 3)?)),
        "sortdeg" => Ok(Form::SortByDegree(text_at(alloc, line, 1)?, text_at(alloc, line, 3)?)),
        "build" => Ok(Form::Build(text_at(alloc, line, 1)?, text_at(alloc, line, 3)?)),
        _ => form_with_pair(alloc, line),
    }
}

/// The same, among the other commands with two names and in the parts behind them.
#[tactic(auto, unfolding(crate::specs::Commands::form_among, crate::specs::Commands::pair_commands, crate::specs::Words::word_at))]
fn form_with_pair(alloc: Global, line: &str) -> Result<Form, LineFault>
    ensures { Gives result (form_among from_pair (words_of line.now)) }
{
    match nth_word(line, 0) {
        "load" => Ok(Form::Load(text_at(alloc, line, 1)?, text_at(alloc, line, 3)?)),
        "get" => Ok(Form::Get(text_at(alloc, line, 1)?, text_at(alloc, line, 3)?)),
        _ => form_with_number(alloc, line),
    }
}

/// The same, among the commands with numbers and in the parts behind them.
#[tactic(auto, unfolding(crate::specs::Commands::form_among, crate::specs::Commands::number_commands, crate::specs::Words::word_at))]
fn form_with_number(alloc: Global, line: &str) -> Result<Form, LineFault>
    ensures { Gives result (form_among from_number (words_of line.now)) }
{
    match nth_word(line, 0) {
        "publish" => Ok(publish_form(alloc, line)?),
        "checkout" => Ok(checkout_form(alloc, line)?),
        _ => form_with_rest(alloc, line),
    }
}

/// The same, among the commands with a name and the rest of the line.
#[tactic(auto, unfolding(crate::specs::Commands::form_among, crate::specs::Commands::rest_commands, crate::specs::Words::word_at))]
fn form_with_rest(alloc: Global, line: &str) -> Result<Form, LineFault>
    ensures { Gives result (form_among rest_commands (words_of line.now)) }
{
    match nth_word(line, 0) {
        "change" => Ok(Form::Change(text_at(alloc, line, 1)?, text_from(alloc, line, 2)?)),
        _ => Err(LineFault::Bad(LineWhy::Word)),
    }
}

/// The form of `publish G as L keep K threshold T`.
#[tactic(auto, unfolding(crate::specs::Words::word_at))]
fn publish_form(alloc: Global, line: &str) -> Result<Form, NoMemory>
    ensures { IfOk result (λ form. form ≡ publish_form (words_of line.now)) }
{
    let graph = text_at(alloc, line, 1)?;
    let name = text_at(alloc, line, 3)?;
    let keep = number_at(line, 5, MOST_KEEP) as u32;
    let threshold = number_at(line, 7, MOST_LONG);
    Ok(Form::Publish(graph, name, keep, threshold))
}

/// The form of `checkout G at SID`, where SID may be `latest`.
#[tactic(auto, unfolding(crate::specs::Words::word_at))]
fn checkout_form(alloc: Global, line: &str) -> Result<Form, NoMemory>
    ensures { IfOk result (λ form. form ≡ checkout_form (words_of line.now)) }
{
    let graph = text_at(alloc, line, 1)?;
    if nth_word(line, 3) == "latest" {
        return Ok(Form::CheckoutLatest(graph));
    }
    Ok(Form::CheckoutSid(graph, number_at(line, 3, MOST_LONG)))
}

/// The word at a place, counted from 0.
fn text_at(alloc: Global, line: &str, place: usize) -> Result<Text, NoMemory>
    ensures { IfOk result (λ text. text ≡ word_at line.now place) }
{
    Text::from_str(alloc, nth_word(line, place))
}

/// The rest of a line from the word at a place on.
fn text_from(alloc: Global, line: &str, place: usize) -> Result<Text, NoMemory>
    ensures { IfOk result (λ text. text ≡ rest_in (words_of line.now) place) }
{
    Text::from_str(alloc, rest_from(line, place))
}

/// The number from 1 to `most` at a place, and 0 where none stands there.
fn number_at(line: &str, place: usize, most: u64) -> u64
    ensures number { result ≡ unwrap_or (number 1 most (word_at line.now place)) 0 }
    ensures within { result ≤ most }
{
    read_number(nth_word(line, place), 1, most).unwrap_or(0)
}
