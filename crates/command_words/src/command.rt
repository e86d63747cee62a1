//! The program's words, read by clap: one level of subcommands, required options.

use crate::help;
use cert_table::MOST_RANK;
use clap::{Arg, ArgAction, ArgMatches, Command, Error, value_parser};
use frame_records::MOST_PENCE;
use page_ids::MOST_PAGE;
use std::alloc::{AllocError, Global};
use std::rt::Env;
use std::{env, io};

// The words for the forms of a screen.
const FORMS: &[&str] = &["text", "ansi", "svg", "cells", "link", "html"];

// The words for the forms of files of screens.
const SAVED_FORMS: &[&str] = &["bin", "ep1", "tti", "link"];

// The words for what a caller of `serve` has.
const CALL_FORMS: &[&str] = &["viewdata", "ansi"];

// The words for the forms of findings.
const FORMATS: &[&str] = &["full", "line", "json", "github"];

// The words for when findings are in colour.
const COLOURINGS: &[&str] = &["auto", "always", "never"];

// The codes of warnings.
const WARNINGS: &[&str] = &[
    "UNREACHED",
    "UNSOUGHT",
    "HIDDEN",
    "LINEEND",
    "ESCAPE",
    "MENU",
];

// The words for the forms of a list.
const LIST_FORMATS: &[&str] = &["line", "json"];

// A word that is known by its place.
fn place<'a>(alloc: Global, name: &'a str, help: &'a str) -> Arg<'a> {
    Arg::new(alloc, name)
        .required(true)
        .action(ArgAction::Set)
        .help(help)
}

// The base that a command reads.
fn base<'a>(alloc: Global) -> Arg<'a> {
    place(alloc, "BASE", "The base, a TOML file; - is standard input")
}

// A flag.
fn flag<'a>(alloc: Global, name: &'a str, help: &'a str) -> Arg<'a> {
    Arg::new(alloc, name)
        .long(name)
        .action(ArgAction::SetTrue)
        .help(help)
}

// An option with a value.
fn option<'a>(alloc: Global, name: &'a str, value: &'a str, help: &'a str) -> Arg<'a> {
    Arg::new(alloc, name)
        .long(name)
        .value_name(value)
        .action(ArgAction::Set)
        .help(help)
}

// An option whose value is one of these words.
fn choice<'a>(
    alloc: Global,
    name: &'a str,
    value: &'a str,
    words: &'a [&'a str],
    help: &'a str,
) -> Arg<'a> {
    option(alloc, name, value, help).value_parser(words)
}

// An option whose value is a whole number from 0 to a limit. A negative one is out of the range, and no option.
fn number<'a>(alloc: Global, name: &'a str, most: u16, help: &'a str) -> Arg<'a> {
    option(alloc, name, "N", help)
        .allow_negative_numbers(true)
        .value_parser(value_parser!(u16).range(0..=i64::from(most)))
}

// An option whose value is the number of a page.
fn page<'a>(alloc: Global, name: &'a str, help: &'a str) -> Arg<'a> {
    option(alloc, name, "PAGE", help)
        .allow_negative_numbers(true)
        .value_parser(value_parser!(u32).range(0..=i64::from(MOST_PAGE)))
}

// The most that a frame may cost, in pence.
fn ceiling<'a>(alloc: Global, help: &'a str) -> Arg<'a> {
    number(alloc, "ceiling", MOST_PENCE, help).short('c')
}

// The most keys back to the entry page.
fn keyings<'a>(alloc: Global, help: &'a str) -> Arg<'a> {
    number(alloc, "keyings", MOST_RANK, help).short('k')
}

// The caller's closed user groups, which may be left out.
fn with_groups<'a>(alloc: Global, command: Command<'a>) -> Result<Command<'a>, AllocError> {
    let help = "Assume callers in these groups: at most 16, ascending, 1 to 65535, e.g. '7,9'";
    command.arg(option(alloc, "groups", "LIST", help).short('g'))
}

// What a policy asks, as options.
fn with_policy<'a>(alloc: Global, command: Command<'a>) -> Result<Command<'a>, AllocError> {
    let price = "Allow no frame to cost more than N pence, 0 to 9999";
    let keys = "Allow at most N keys back to the entry page, 0 to 65535";
    let command = command
        .arg(ceiling(alloc, price).required(true))?
        .arg(keyings(alloc, keys).required(true))?;
    with_groups(alloc, command)
}

// The file that is written in place of standard output.
fn out_option<'a>(alloc: Global, help: &'a str) -> Arg<'a> {
    option(alloc, "out", "FILE", help).short('o')
}

// The options of what is printed.
fn with_report<'a>(alloc: Global, command: Command<'a>) -> Result<Command<'a>, AllocError> {
    let format =
        "Print each finding with its line of the base, as one line, as JSON, or as a command of GitHub";
    let color = "Colour the full form; auto: if standard output is a terminal";
    let ignore = "Leave out the warnings of these codes, e.g. 'UNREACHED,HIDDEN'";
    let ignored = option(alloc, "ignore", "CODES", ignore)
        .action(ArgAction::Append)
        .value_delimiter(',')
        .value_parser(WARNINGS);
    command
        .arg(choice(alloc, "format", "FORMAT", FORMATS, format).default_value("full"))?
        .arg(choice(alloc, "color", "WHEN", COLOURINGS, color).default_value("auto"))?
        .arg(ignored)?
        .arg(flag(alloc, "quiet", "Print no warnings and no count").short('q'))
}

// The options of what is done about slips.
fn with_fixes<'a>(alloc: Global, command: Command<'a>) -> Result<Command<'a>, AllocError> {
    let fix = "Fix each slip that can have meant only one thing, and find what is left";
    let diff = "Print what --fix would change as a diff, and change nothing";
    command
        .arg(flag(alloc, "fix", fix))?
        .arg(flag(alloc, "diff", diff))
}

fn lint_command<'a>(alloc: Global) -> Result<Command<'a>, AllocError> {
    let bases = place(alloc, "BASE", "The bases, TOML files; - is standard input")
        .num_args(1..)
        .action(ArgAction::Append);
    let command = Command::new(alloc, "lint")
        .about("Find every fault of bases, each at its line and column")
        .after_help(help::LINT)
        .arg(bases)?;
    let deny = "End with status 1 for a warning too";
    let price = "Report each frame that costs more than N pence, 0 to 9999";
    let keys = "Report each frame more than N keys back to the entry page, 0 to 65535";
    let command = with_report(alloc, command)?
        .arg(flag(alloc, "deny-warnings", deny))?
        .arg(ceiling(alloc, price).default_value("9999"))?
        .arg(keyings(alloc, keys).default_value("65535"))?;
    with_groups(alloc, with_fixes(alloc, command)?)
}

fn audit_command<'a>(alloc: Global) -> Result<Command<'a>, AllocError> {
    let command = Command::new(alloc, "audit")
        .about("Find a base's certificate, or list its faults with the keys that show them")
        .after_help(help::AUDIT)
        .arg(base(alloc))?
        .arg(out_option(alloc, "Write the certificate to FILE, only if there is one"))?;
    with_policy(alloc, command)
}

fn check_command<'a>(alloc: Global) -> Result<Command<'a>, AllocError> {
    let command = Command::new(alloc, "check")
        .about("Check a certificate against a base, without any search")
        .after_help(help::CHECK)
        .arg(base(alloc))?
        .arg(place(alloc, "CERT", "The certificate; - is standard input"))?;
    with_policy(alloc, command)
}

fn change_command<'a>(alloc: Global) -> Result<Command<'a>, AllocError> {
    let command = Command::new(alloc, "change")
        .about("Check whether a new edition may take an old one's place while callers are inside")
        .after_help(help::CHANGE)
        .arg(place(alloc, "OLD", "The base that is served now, a TOML file"))?
        .arg(place(alloc, "OLDCERT", "Its certificate"))?
        .arg(place(alloc, "NEW", "The base that takes its place, a TOML file"))?
        .arg(place(alloc, "NEWCERT", "The certificate of the new base"))?;
    with_policy(alloc, command)
}

fn walk_command<'a>(alloc: Global) -> Result<Command<'a>, AllocError> {
    let command = Command::new(alloc, "walk")
        .about("Print the replies to keys from the entry page")
        .after_help(help::WALK)
        .arg(base(alloc))?
        .arg(place(alloc, "KEYS", "Keys without spaces, e.g. '1#*#*00*09'"))?;
    with_groups(alloc, command)
}

fn show_command<'a>(alloc: Global) -> Result<Command<'a>, AllocError> {
    let frame = "A frame, e.g. 478a, or a page for its frame a; without it the entry frame";
    let keys = "Show the screen after these keys from the entry page, e.g. '1#*#'";
    let form =
        "Write text, colours for a terminal, a picture, the 960 codes, an edit.tf address, or an html page";
    let command = Command::new(alloc, "show")
        .about("Show a screen as a caller sees it")
        .after_help(help::SHOW)
        .arg(base(alloc))?
        .arg(place(alloc, "FRAME", frame).required(false))?
        .arg(option(alloc, "keys", "KEYS", keys).conflicts_with("FRAME")?)?
        .arg(choice(alloc, "as", "FORM", FORMS, form))?
        .arg(out_option(alloc, "Write the screen to FILE, only if there is one"))?;
    with_groups(alloc, with_html_options(alloc, command)?)
}

// What goes with the form html alone.
fn with_html_options<'a>(alloc: Global, command: Command<'a>) -> Result<Command<'a>, AllocError> {
    let price = "With --as html: report each frame that costs more than N pence";
    let keys = "With --as html: report each frame more than N keys back to the entry page";
    let from = "With --as html: only the frames that keys lead to from frame a of PAGE";
    command
        .arg(ceiling(alloc, price))?
        .arg(keyings(alloc, keys))?
        .arg(page(alloc, "page", from).group("near")?)?
        .arg(within_option(alloc)?)
}

fn list_command<'a>(alloc: Global) -> Result<Command<'a>, AllocError> {
    let format = "Print each frame as one line, or as JSON";
    let command = Command::new(alloc, "list")
        .about("List the frames of a base, with the keys that lead there")
        .after_help(help::LIST)
        .arg(base(alloc))?
        .arg(choice(alloc, "format", "FORMAT", LIST_FORMATS, format).default_value("line"))?;
    with_groups(alloc, command)
}

// How many keys away from the page, which one of the options of the group `near` names.
fn within_option<'a>(alloc: Global) -> Result<Arg<'a>, AllocError> {
    let help = "At most N keys from or to PAGE; any number without it";
    number(alloc, "within", u16::MAX, help).requires_arg("near")
}

fn map_command<'a>(alloc: Global) -> Result<Command<'a>, AllocError> {
    let from = "Draw the frames that keys lead to from frame a of PAGE";
    let to = "Draw the frames from which keys lead to frame a of PAGE";
    let command = Command::new(alloc, "map")
        .about("Draw a base as a graph, a DOT file for Graphviz")
        .after_help(help::MAP)
        .arg(base(alloc))?
        .arg(page(alloc, "page", from).group("near")?)?
        .arg(page(alloc, "to", to).group("near")?)?
        .arg(within_option(alloc)?)?;
    with_groups(alloc, command)
}

// What screens are taken, and into which base.
fn with_screens<'a>(alloc: Global, command: Command<'a>) -> Result<Command<'a>, AllocError> {
    let screens =
        "Files of screens, or folders of them; - is standard input. A name like 478a.bin, or row 0, gives the frame";
    let into = "Put the frames into BASE, and change only the rows of these frames";
    let screen = place(alloc, "SCREEN", screens)
        .num_args(1..)
        .action(ArgAction::Append);
    command.arg(screen)?.arg(option(alloc, "into", "BASE", into).conflicts_with("entry")?)
}

fn import_command<'a>(alloc: Global) -> Result<Command<'a>, AllocError> {
    let diff = "Print what --into would change as a diff, and change nothing";
    let stream = "The files are captures of what a centre sent, each of any number of screens";
    let skip = "Print the base of the other frames if some are at fault";
    let routes =
        "Guess the routes of new frames from the numbers of pages and the keys that are shown";
    let entry = "The base's entry page; without it the smallest page";
    let command = Command::new(alloc, "import")
        .about("Make a base of saved screens, or put them into one")
        .after_help(help::IMPORT);
    with_screens(alloc, command)?
        .arg(flag(alloc, "diff", diff))?
        .arg(flag(alloc, "stream", stream))?
        .arg(flag(alloc, "skip-bad", skip))?
        .arg(flag(alloc, "routes", routes))?
        .arg(page(alloc, "entry", entry))
}

fn export_command<'a>(alloc: Global) -> Result<Command<'a>, AllocError> {
    let out = "Write the files into FOLDER, which is made if it isn't there";
    let form = "Write 960 codes, EP1 or TTI files, or addresses of edit.tf; bin without it";
    let folder = option(alloc, "out", "FOLDER", out)
        .short('o')
        .required(true);
    let command = Command::new(alloc, "export")
        .about("Write the screen of each frame of a base to a file")
        .after_help(help::EXPORT)
        .arg(base(alloc))?
        .arg(folder)?
        .arg(choice(alloc, "as", "FORM", SAVED_FORMS, form))?
        .arg(flag(alloc, "force", "Replace files that are there"))?;
    with_groups(alloc, command)
}

fn serve_command<'a>(alloc: Global) -> Result<Command<'a>, AllocError> {
    let folder = "The folder of editions; its file current names the one served";
    let form = "Serve a viewdata terminal, or any terminal of 24 rows and 80 columns with colours";
    let log = "Note the call's beginning, changes of edition and its end on standard error";
    Command::new(alloc, "serve")
        .about("Open the current edition of a folder to one caller")
        .after_help(help::SERVE)
        .arg(place(alloc, "FOLDER", folder))?
        .arg(choice(alloc, "as", "FORM", CALL_FORMS, form).default_value("viewdata"))?
        .arg(flag(alloc, "log", log))
}

fn publish_command<'a>(alloc: Global) -> Result<Command<'a>, AllocError> {
    let folder = "The folder of editions; its policy.toml has the limits";
    let new = "If the change is refused, publish only for new callers";
    let page = "Write the base to FILE for a browser, if it is published";
    Command::new(alloc, "publish")
        .about("Check a base and the change to it, and make it the edition that a folder serves")
        .after_help(help::PUBLISH)
        .arg(base(alloc))?
        .arg(place(alloc, "FOLDER", folder))?
        .arg(flag(alloc, "dry-run", "Check all and write nothing"))?
        .arg(flag(alloc, "new-callers", new))?
        .arg(flag(alloc, "deny-warnings", "Don't publish a base with warnings"))?
        .arg(option(alloc, "page", "FILE", page))
}

fn editions_command<'a>(alloc: Global) -> Result<Command<'a>, AllocError> {
    let verify = "Check each edition, its sums and the change to it";
    Command::new(alloc, "editions")
        .about("List the editions of a folder, or check them and the changes between them")
        .after_help(help::EDITIONS)
        .arg(place(alloc, "FOLDER", "The folder of editions"))?
        .arg(flag(alloc, "verify", verify))
}

fn explain_command<'a>(alloc: Global) -> Result<Command<'a>, AllocError> {
    let code = "A printed word, e.g. K7, MISSING or s80; without one all are listed";
    Command::new(alloc, "explain")
        .about("Explain a printed word, with an example and the fix")
        .after_help(help::EXPLAIN)
        .arg(place(alloc, "CODE", code).required(false))
}

// A command with one more subcommand, if there was memory for both.
fn with_part<'a>(
    whole: Result<Command<'a>, AllocError>,
    part: Result<Command<'a>, AllocError>,
) -> Result<Command<'a>, AllocError> {
    whole?.subcommand(part?)
}

fn whole_command<'a>(alloc: Global) -> Result<Command<'a>, AllocError> {
    let whole = Command::new(alloc, "pageaudit")
        .bin_name("pageaudit")?
        .about("Audit the page base of a viewdata information provider")
        .after_help(help::COMMANDS)
        .version(help::VERSION)
        .subcommand_required(true);
    let whole = with_part(Ok(whole), show_command(alloc));
    let whole = with_part(whole, list_command(alloc));
    let whole = with_part(whole, walk_command(alloc));
    let whole = with_part(whole, map_command(alloc));
    let whole = with_part(whole, import_command(alloc));
    let whole = with_part(whole, export_command(alloc));
    let whole = with_part(whole, lint_command(alloc));
    let whole = with_part(whole, audit_command(alloc));
    let whole = with_part(whole, check_command(alloc));
    let whole = with_part(whole, change_command(alloc));
    let whole = with_part(whole, publish_command(alloc));
    let whole = with_part(whole, editions_command(alloc));
    let whole = with_part(whole, serve_command(alloc));
    with_part(whole, explain_command(alloc))
}

/// Why there are no words.
#[derive(Debug, Clone, Copy, PartialEq, Eq)]
pub enum WordsFault {
    /// A growth was refused.
    Memory,
    /// A word isn't UTF-8.
    NotUtf8,
}

/// The program's words.
pub fn words(rt: &(impl Env + AllocGlobal), alloc: Global) -> Result<Vec<String>, WordsFault> {
    match collected(rt, alloc) {
        Ok(words) => Ok(words),
        Err(error) if error.kind() == io::ErrorKind::OutOfMemory => Err(WordsFault::Memory),
        Err(_) => Err(WordsFault::NotUtf8),
    }
}

fn collected(rt: &(impl Env + AllocGlobal), alloc: Global) -> io::Result<Vec<String>> {
    Ok(env::args(rt)?.collect(alloc)?)
}

/// What the words say.
pub fn matches<'a>(alloc: Global, words: &'a [String]) -> Result<ArgMatches<'a>, Error> {
    whole_command(alloc)?.try_get_matches_from(words)
}
