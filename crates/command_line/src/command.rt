// The command line.

ghost use Rattle.std.specs.Prelude.{◌≡◌, ℕ, List, Err, IfOk, codes, map, option_map, false};
ghost use Rattle.clap.specs.Words.{app_of, first_of, found_of, kind_of, rows_of, rule_of, subcommand_rows_of, with_rule};
ghost use Rattle.clap.specs.declared.builder.command.Command.TheViews.{out-Command};
ghost use Rattle.command_line.specs.CommandRows.{RequestRows, OptimiseRows, DerivationRows, PlaceRows, StepsRows, CompileRows, HelpRows, VersionRows, NothingRows, NoOptimiseRows, NoStepsRows, NoCompileRows};
ghost use Rattle.command_line.specs.CommandLine.{IsNothing, ReadsWords, RepliesTo, and_command, and_compiling, and_rewriting, and_running, apply_in, command_line, command_taking, compile_checked_in, compile_in, derivation_in, derivation_view, file_name, flag, is_given, printing_in, printing_view, laws_in, request_by, request_on, request_view, valued, wanted_by, wanted_in, with_parts, with_printing, types, run, outline, optimise, check, run_checked};

use crate::help::{self, HelpText};
use clap::error::{Error, ErrorKind};
use clap::{Arg, ArgAction, ArgMatches, Command};
use std::alloc::{AllocError, Global};

/// The names of the files of a derivation.
#[derive(Clone, Copy)]
pub struct Derivation<'a> {
    /// The network that it begins with.
    pub source: &'a str,
    /// The network that it leads to.
    pub target: &'a str,
    /// Its steps.
    pub certificate: &'a str,
}

/// The names of the files of a network and of steps that lead on from it.
#[derive(Clone, Copy)]
pub struct Leading<'a> {
    /// The network that they begin with.
    pub source: &'a str,
    /// The steps.
    pub certificate: &'a str,
    /// The word that says how many of them are taken; all if there is none.
    pub first: Option<&'a str>,
    /// Whether the steps are shown, in place of the network that they lead to.
    pub shows: bool,
}

/// What is wanted of the optimiser.
#[derive(Clone, Copy)]
pub enum Wanted {
    /// The network that it finds.
    Network,
    /// The certificate that leads there.
    Certificate,
}

/// What of a network's C is to be printed, and how.
#[derive(Clone, Copy)]
pub struct Printing<'a> {
    /// The word that all names begin with; `yampa` if there is none.
    pub name: Option<&'a str>,
    /// The word that says how many elements a list of the input may have; as many as a line can hold
    /// if there is none.
    pub most: Option<&'a str>,
    /// Whether the `main` is left out.
    pub no_main: bool,
    /// Whether the declarations alone are printed.
    pub header: bool,
    /// Whether a step takes what it is given without a test.
    pub unchecked: bool,
}

/// What the command line asks for.
#[derive(Clone, Copy)]
pub enum Request<'a> {
    /// The types, the weight and the height of the network in a file.
    Types {
        net: &'a str,
    },
    /// A run of the network in a file.
    Run {
        net: &'a str,
    },
    /// What stands where in the network in a file.
    Outline {
        net: &'a str,
    },
    /// The steps that are possible in the network in a file, at the position that a word names and
    /// below; at any position if there is none.
    Laws {
        net: &'a str,
        at: Option<&'a str>,
    },
    /// What the optimiser makes of the network in a file.
    Optimise {
        net: &'a str,
        wanted: Wanted,
    },
    /// Whether a certificate leads from its source to its target.
    Check(Derivation<'a>),
    /// A check, and then a run of the target.
    RunChecked(Derivation<'a>),
    /// Where steps lead.
    Apply(Leading<'a>),
    /// The network in a file as C.
    Compile {
        net: &'a str,
        printing: Printing<'a>,
    },
    /// A check, and then the target as C.
    CompileChecked {
        names: Derivation<'a>,
        printing: Printing<'a>,
    },
}

/// What a subcommand takes.
#[derive(Clone, Copy)]
enum Takes {
    /// A network file.
    Network,
    /// A network file, and a flag for the certificate.
    Wanted,
    /// A network file, and a place in it.
    Place,
    /// The files of a derivation.
    Derivation,
    /// The files of a source and a certificate, how many steps, and a flag for the steps.
    Steps,
    /// A network file, and how its C is printed.
    Printing,
    /// The files of a derivation, and how the target's C is printed.
    CheckedPrinting,
}

/// Why the command line is no request.
#[derive(Drop)]
pub enum Reply {
    /// Help that was asked for, or the version.
    Help(String),
    /// What is wrong with the words.
    Wrong(String),
    /// Allocation failed.
    Memory,
}

impl From<AllocError> for Reply {
    ghost use Rattle.command_line.specs.declared.command.Reply.TheVariants as Reply;

    ghost from_gives = { λ _ e. e ≡ Reply.Memory };

    fn from(_: AllocError) -> Reply {
        Reply::Memory
    }
}

/// The name of a file, which must be given, with its help text.
fn named_file<'a>(alloc: Global, id: &'a str, text: &'a str) -> Arg<'a>
    ensures rule { rule_of result ≡ file_name id.entry.now }
    ensures local { result.global ≡ false }
{
    Arg::new(alloc, id)
        .required(true)
        .action(ArgAction::Set)
        .help(text)
}

/// A flag, which may stand before or after the name of a file, with its help text.
fn flag<'a>(alloc: Global, id: &'a str, text: &'a str) -> Arg<'a>
    ensures rule { rule_of result ≡ flag id.entry.now }
    ensures local { result.global ≡ false }
{
    Arg::new(alloc, id)
        .long(id)
        .action(ArgAction::SetTrue)
        .help(text)
}

/// An option with one value, which may stand before or after the names of files, with its help
/// text.
fn valued<'a>(alloc: Global, id: &'a str, name: &'a str, text: &'a str) -> Arg<'a>
    ensures rule { rule_of result ≡ valued id.entry.now name.entry.now }
    ensures local { result.global ≡ false }
{
    Arg::new(alloc, id)
        .long(name)
        .action(ArgAction::Set)
        .help(text)
}

/// The subcommand, which takes the file of that name too, with its help text.
fn and_file<'a>(
    alloc: Global,
    command: Command<'a>,
    id: &'a str,
    text: &'a str,
) -> Result<Command<'a>, AllocError>
    requires { (out-Command command).has_globals ≡ false }
    ensures app { IfOk result
        (λ c. app_of c ≡ with_rule (app_of command.entry) (file_name id.entry.now)) }
    ensures local { IfOk result (λ c. (out-Command c).has_globals ≡ false) }
{
    command.arg(named_file(alloc, id, text))
}

/// The subcommand, which takes that flag too, with its help text.
fn and_flag<'a>(
    alloc: Global,
    command: Command<'a>,
    id: &'a str,
    text: &'a str,
) -> Result<Command<'a>, AllocError>
    requires { (out-Command command).has_globals ≡ false }
    ensures app { IfOk result
        (λ c. app_of c ≡ with_rule (app_of command.entry) (flag id.entry.now)) }
    ensures local { IfOk result (λ c. (out-Command c).has_globals ≡ false) }
{
    command.arg(flag(alloc, id, text))
}

/// The subcommand, which takes that option with one value too, with its help text.
fn and_valued<'a>(
    alloc: Global,
    command: Command<'a>,
    id: &'a str,
    name: &'a str,
    text: &'a str,
) -> Result<Command<'a>, AllocError>
    requires { (out-Command command).has_globals ≡ false }
    ensures app { IfOk result
        (λ c. app_of c ≡ with_rule (app_of command.entry) (valued id.entry.now name.entry.now)) }
    ensures local { IfOk result (λ c. (out-Command c).has_globals ≡ false) }
{
    command.arg(valued(alloc, id, name, text))
}

/// A subcommand of that name that takes so much, with its help text.
fn command_taking<'a>(
    alloc: Global,
    takes: Takes,
    name: &'a str,
    text: HelpText<'a>,
) -> Result<Command<'a>, AllocError>
    ensures app { IfOk result (λ c. app_of c ≡ command_taking takes name.entry.now) }
    ensures local { IfOk result (λ c. (out-Command c).has_globals ≡ false) }
{
    let command = Command::new(alloc, name)
        .about(text.does)
        .after_help(text.more)
        .override_usage(text.usage);
    match takes {
        Takes::Network => and_file(alloc, command, "NET", help::NET),
        Takes::Wanted => and_file(alloc, command, "NET", help::NET)?.arg(flag(
            alloc,
            "certificate",
            help::CERTIFICATE,
        )),
        Takes::Place => {
            and_file(alloc, command, "NET", help::NET)?.arg(valued(alloc, "P", "at", help::AT))
        }
        Takes::Derivation => and_derivation(alloc, command),
        Takes::Steps => and_steps(alloc, command),
        Takes::Printing => with_printing(alloc, and_file(alloc, command, "NET", help::NET)?),
        Takes::CheckedPrinting => with_printing(alloc, and_derivation(alloc, command)?),
    }
}

/// The subcommand, which takes a source and a target.
fn and_pair<'a>(alloc: Global, command: Command<'a>) -> Result<Command<'a>, AllocError>
    requires { (out-Command command).has_globals ≡ false }
    ensures app { IfOk result (λ c. app_of c ≡ with_rule
        (with_rule (app_of command.entry) (file_name (codes "SRC"))) (file_name (codes "TGT"))) }
    ensures local { IfOk result (λ c. (out-Command c).has_globals ≡ false) }
{
    let command = and_file(alloc, command, "SRC", help::SRC)?;
    and_file(alloc, command, "TGT", help::TGT)
}

/// The subcommand, which takes a source, a target and a certificate.
fn and_derivation<'a>(alloc: Global, command: Command<'a>) -> Result<Command<'a>, AllocError>
    requires { (out-Command command).has_globals ≡ false }
    ensures app { IfOk result (λ c. app_of c ≡ with_rule
        (with_rule (with_rule (app_of command.entry) (file_name (codes "SRC")))
        (file_name (codes "TGT"))) (file_name (codes "CERT"))) }
    ensures local { IfOk result (λ c. (out-Command c).has_globals ≡ false) }
{
    let command = and_pair(alloc, command)?;
    and_file(alloc, command, "CERT", help::CERT)
}

/// The subcommand, which takes what all names of C begin with, and which parts are left out.
fn with_parts<'a>(alloc: Global, command: Command<'a>) -> Result<Command<'a>, AllocError>
    requires { (out-Command command).has_globals ≡ false }
    ensures app { IfOk result (λ c. app_of c ≡ with_parts (app_of command.entry)) }
    ensures local { IfOk result (λ c. (out-Command c).has_globals ≡ false) }
{
    let command = and_valued(alloc, command, "WORD", "name", help::NAME)?;
    let command = and_flag(alloc, command, "no-main", help::NO_MAIN)?;
    and_flag(alloc, command, "header", help::HEADER)
}

/// The subcommand, which takes how C is printed.
fn with_printing<'a>(alloc: Global, command: Command<'a>) -> Result<Command<'a>, AllocError>
    requires { (out-Command command).has_globals ≡ false }
    ensures app { IfOk result (λ c. app_of c ≡ with_printing (app_of command.entry)) }
    ensures local { IfOk result (λ c. (out-Command c).has_globals ≡ false) }
{
    let command = with_parts(alloc, command)?;
    let command = and_valued(alloc, command, "N", "most", help::MOST)?;
    and_flag(alloc, command, "unchecked", help::UNCHECKED)
}

/// The subcommand, which takes a source, a certificate, how many steps, and a flag for the steps.
fn and_steps<'a>(alloc: Global, command: Command<'a>) -> Result<Command<'a>, AllocError>
    requires { (out-Command command).has_globals ≡ false }
    ensures app { IfOk result (λ c. app_of c ≡ with_rule
        (with_rule
        (with_rule (with_rule (app_of command.entry) (file_name (codes "SRC")))
        (file_name (codes "CERT"))) (valued (codes "N") (codes "first"))) (flag (codes "steps"))) }
    ensures local { IfOk result (λ c. (out-Command c).has_globals ≡ false) }
{
    let command = and_file(alloc, command, "SRC", help::SRC)?;
    let command = and_file(alloc, command, "CERT", help::CERT)?;
    let command = command.arg(valued(alloc, "N", "first", help::FIRST))?;
    command.arg(flag(alloc, "steps", help::STEPS))
}

/// The command with one more subcommand, of that name, that takes so much.
fn and_command<'a>(
    alloc: Global,
    command: Command<'a>,
    takes: Takes,
    name: &'a str,
    text: HelpText<'a>,
) -> Result<Command<'a>, AllocError>
    ensures app { IfOk result
        (λ c. app_of c ≡ and_command (app_of command.entry) takes name.entry.now) }
{
    match command_taking(alloc, takes, name, text) {
        Ok(subcommand) => command.subcommand(subcommand),
        Err(refused) => {
            drop(command);
            Err(refused)
        }
    }
}

/// The program's command line.
fn make_command<'a>(alloc: Global) -> Result<Command<'a>, AllocError>
    ensures { IfOk result (λ c. app_of c ≡ command_line) }
{
    let command = Command::new(alloc, "yampa")
        .version(help::VERSION)
        .subcommand_required(true)
        .about(help::PROGRAM)
        .after_help(help::PROGRAM_MORE);
    let command = and_running(alloc, command)?;
    let command = and_rewriting(alloc, command)?;
    and_compiling(alloc, command)
}

/// The command with the subcommands that run and check networks.
fn and_running<'a>(alloc: Global, command: Command<'a>) -> Result<Command<'a>, AllocError>
    ensures app { IfOk result (λ c. app_of c ≡ and_running (app_of command.entry)) }
{
    let command = and_command(alloc, command, Takes::Network, "types", help::TYPES)?;
    let command = and_command(alloc, command, Takes::Network, "run", help::RUN)?;
    let command = and_command(alloc, command, Takes::Derivation, "check", help::CHECK)?;
    and_command(
        alloc,
        command,
        Takes::Derivation,
        "run-checked",
        help::RUN_CHECKED,
    )
}

/// The command with the subcommands that rewrite networks, or show how they may be rewritten.
fn and_rewriting<'a>(alloc: Global, command: Command<'a>) -> Result<Command<'a>, AllocError>
    ensures app { IfOk result (λ c. app_of c ≡ and_rewriting (app_of command.entry)) }
{
    let command = and_command(alloc, command, Takes::Network, "outline", help::OUTLINE)?;
    let command = and_command(alloc, command, Takes::Place, "laws", help::LAWS)?;
    let command = and_command(alloc, command, Takes::Steps, "apply", help::APPLY)?;
    and_command(alloc, command, Takes::Wanted, "optimise", help::OPTIMISE)
}

/// The command with the subcommands that print C.
fn and_compiling<'a>(alloc: Global, command: Command<'a>) -> Result<Command<'a>, AllocError>
    ensures app { IfOk result (λ c. app_of c ≡ and_compiling (app_of command.entry)) }
{
    let command = and_command(alloc, command, Takes::Printing, "compile", help::COMPILE)?;
    and_command(
        alloc,
        command,
        Takes::CheckedPrinting,
        "compile-checked",
        help::COMPILE_CHECKED,
    )
}

/// What the matches ask for.
fn request_of<'a>(matches: &ArgMatches<'a>) -> Option<Request<'a>>
    ensures { option_map request_view result ≡ request_by (subcommand_rows_of matches.now) }
{
    let (name, inner) = matches.subcommand()?;
    request_named(name, inner)
}

/// What a subcommand of that name asks for by its matches.
fn request_named<'a>(name: &str, matches: &ArgMatches<'a>) -> Option<Request<'a>>
    ensures { option_map request_view result ≡ request_on name.now (rows_of (found_of matches.now)) }
{
    match name {
        "types" => types_of(matches),
        "run" => run_of(matches),
        "check" => check_of(matches),
        "run-checked" => run_checked_of(matches),
        "outline" => outline_of(matches),
        "laws" => laws_of(matches),
        "apply" => apply_of(matches),
        "optimise" => optimise_of(matches),
        "compile" => compile_of(matches),
        "compile-checked" => compile_checked_of(matches),
        _ => None,
    }
}

fn types_of<'a>(matches: &ArgMatches<'a>) -> Option<Request<'a>>
    ensures { option_map request_view result
        ≡ option_map types (first_of (codes "NET") (rows_of (found_of matches.now))) }
{
    let net = value_of(matches, "NET")?;
    Some(Request::Types { net })
}

fn run_of<'a>(matches: &ArgMatches<'a>) -> Option<Request<'a>>
    ensures { option_map request_view result
        ≡ option_map run (first_of (codes "NET") (rows_of (found_of matches.now))) }
{
    let net = value_of(matches, "NET")?;
    Some(Request::Run { net })
}

fn outline_of<'a>(matches: &ArgMatches<'a>) -> Option<Request<'a>>
    ensures { option_map request_view result
        ≡ option_map outline (first_of (codes "NET") (rows_of (found_of matches.now))) }
{
    let net = value_of(matches, "NET")?;
    Some(Request::Outline { net })
}

fn laws_of<'a>(matches: &ArgMatches<'a>) -> Option<Request<'a>>
    ensures { option_map request_view result ≡ laws_in (rows_of (found_of matches.now)) }
{
    let net = value_of(matches, "NET")?;
    let at = value_of(matches, "P");
    Some(Request::Laws { net, at })
}

fn apply_of<'a>(matches: &ArgMatches<'a>) -> Option<Request<'a>>
    ensures { option_map request_view result ≡ apply_in (rows_of (found_of matches.now)) }
{
    let source = value_of(matches, "SRC")?;
    let certificate = value_of(matches, "CERT")?;
    Some(Request::Apply(Leading {
        source,
        certificate,
        first: value_of(matches, "N"),
        shows: is_given(matches, "steps"),
    }))
}

fn optimise_of<'a>(matches: &ArgMatches<'a>) -> Option<Request<'a>>
    ensures { option_map request_view result ≡ wanted_by optimise (rows_of (found_of matches.now)) }
{
    let net = value_of(matches, "NET")?;
    let wanted = wanted_of(matches);
    Some(Request::Optimise { net, wanted })
}

/// What is wanted of the optimiser: the certificate where the flag for it is given.
fn wanted_of(matches: &ArgMatches<'_>) -> Wanted
    ensures { result ≡ wanted_in (rows_of (found_of matches.now)) }
{
    if is_given(matches, "certificate") {
        Wanted::Certificate
    } else {
        Wanted::Network
    }
}

/// Whether that flag is given.
fn is_given(matches: &ArgMatches<'_>, id: &str) -> bool
    ensures { result ≡ is_given id.now (rows_of (found_of matches.now)) }
{
    match value_of(matches, id) {
        Some(value) => value == "true",
        None => false,
    }
}

fn check_of<'a>(matches: &ArgMatches<'a>) -> Option<Request<'a>>
    ensures { option_map request_view result
        ≡ option_map check (derivation_in (rows_of (found_of matches.now))) }
{
    let derivation = derivation_of(matches)?;
    Some(Request::Check(derivation))
}

fn run_checked_of<'a>(matches: &ArgMatches<'a>) -> Option<Request<'a>>
    ensures { option_map request_view result
        ≡ option_map run_checked (derivation_in (rows_of (found_of matches.now))) }
{
    let derivation = derivation_of(matches)?;
    Some(Request::RunChecked(derivation))
}

fn compile_of<'a>(matches: &ArgMatches<'a>) -> Option<Request<'a>>
    ensures { option_map request_view result ≡ compile_in (rows_of (found_of matches.now)) }
{
    let net = value_of(matches, "NET")?;
    let printing = printing_of(matches);
    Some(Request::Compile { net, printing })
}

fn compile_checked_of<'a>(matches: &ArgMatches<'a>) -> Option<Request<'a>>
    ensures { option_map request_view result ≡ compile_checked_in (rows_of (found_of matches.now)) }
{
    let names = derivation_of(matches)?;
    let printing = printing_of(matches);
    Some(Request::CompileChecked { names, printing })
}

/// How C is to be printed.
fn printing_of<'a>(matches: &ArgMatches<'a>) -> Printing<'a>
    ensures { printing_view result ≡ printing_in (rows_of (found_of matches.now)) }
{
    Printing {
        name: value_of(matches, "WORD"),
        most: value_of(matches, "N"),
        no_main: is_given(matches, "no-main"),
        header: is_given(matches, "header"),
        unchecked: is_given(matches, "unchecked"),
    }
}

/// The files of a derivation that the matches name.
fn derivation_of<'a>(matches: &ArgMatches<'a>) -> Option<Derivation<'a>>
    ensures { option_map derivation_view result ≡ derivation_in (rows_of (found_of matches.now)) }
{
    let source = value_of(matches, "SRC")?;
    let target = value_of(matches, "TGT")?;
    let certificate = value_of(matches, "CERT")?;
    Some(Derivation {
        source,
        target,
        certificate,
    })
}

/// The value of that argument.
fn value_of<'a>(matches: &ArgMatches<'a>, id: &str) -> Option<&'a str>
    ensures { option_map (λ s. s.now) result ≡ first_of id.now (rows_of (found_of matches.now)) }
{
    matches.get_str(id)
}

/// What is answered to words that are refused.
fn reply_to(alloc: Global, error: &Error) -> Reply
    ensures { RepliesTo (kind_of error.now) result }
{
    match (error.kind(), format!(in alloc; "{error}")) {
        (ErrorKind::DisplayHelp | ErrorKind::DisplayVersion, Ok(text)) => Reply::Help(text),
        (ErrorKind::OutOfMemory, _) => Reply::Memory,
        (_, Ok(text)) => Reply::Wrong(without_line_feed(text)),
        (_, Err(_)) => Reply::Memory,
    }
}

/// The text without the line feed at its end.
fn without_line_feed(text: String) -> String {
    let mut text = text;
    if text.ends_with('\n') {
        text.pop();
    }
    text
}

/// Reads the words of a command line. The first is the program's name. Answers what they ask for;
/// else help or the version, where that is asked for, or what is wrong with them.
pub fn parse<'a>(alloc: Global, words: &'a [&'a str]) -> Result<Request<'a>, Reply>
    ensures { ReadsWords (map (λ w. w.now) words.entry.now) result }
{
    match make_command(alloc)?.try_get_matches_from(words) {
        Ok(matches) => {
            let request = request_of(&matches);
            drop(matches);
            match request {
                Some(request) => Ok(request),
                None => Err(no_such_command(alloc)),
            }
        }
        Err(error) => {
            let reply = reply_to(alloc, &error);
            drop(error);
            Err(or_beside(alloc, words, reply))
        }
    }
}

/// The reply to words that are refused; where they call a search, which stands beside the program, that
/// is what is wrong with them.
fn or_beside(alloc: Global, words: &[&str], reply: Reply) -> Reply
    ensures { (asked : List (List ℕ)) → ReadsWords asked (Err reply) → ReadsWords asked (Err result) }
{
    match (&reply, words.get(1)) {
        (Reply::Wrong(_), Some(&("improve" | "certify"))) => {
            drop(reply);
            searches_beside(alloc)
        }
        _ => reply,
    }
}

/// What is answered to words that call a search.
fn searches_beside(alloc: Global) -> Reply
    ensures { IsNothing result }
{
    match String::from_str(alloc, help::BESIDE) {
        Ok(line) => Reply::Wrong(line),
        Err(_) => Reply::Memory,
    }
}

/// What is answered to words that ask for nothing that is there.
fn no_such_command(alloc: Global) -> Reply
    ensures { IsNothing result }
{
    match String::from_str(alloc, "no such command") {
        Ok(line) => Reply::Wrong(line),
        Err(_) => Reply::Memory,
    }
}

/// Command lines, word for word, and what they ask for: a file's types or its run, the optimisers,
/// a derivation, places and steps, C, help, the version, or nothing that is there.
pub fn command_rows()
    ensures asked { RequestRows }
    ensures optimise { OptimiseRows }
    ensures derivations { DerivationRows }
    ensures places { PlaceRows }
    ensures steps { StepsRows }
    ensures compile { CompileRows }
    ensures help { HelpRows }
    ensures version { VersionRows }
    ensures nothing { NothingRows }
    ensures no_optimise { NoOptimiseRows }
    ensures no_steps { NoStepsRows }
    ensures no_compile { NoCompileRows }
{}
