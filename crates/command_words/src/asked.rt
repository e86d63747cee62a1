//! What clap made of the words, as a request.

use crate::request::{
    CallForm, Colouring, Export, Fixing, Import, Lint, Pages, Publish, Request, Serve, Show,
};
use audit_report::ListForm;
use cert_table::MOST_RANK;
use checker::Policy;
use clap::ArgMatches;
use finder::View;
use finding_forms::Format;
use frame_records::{Groups, GroupsFault, MOST_PENCE, Pence};
use lint::{Ignored, Level};
use page_ids::{FrameId, PageNo};
use screen_files::FileKind;
use screen_forms::{Form, SavedForm};

/// The groups that the option lists, and none without it; I4 if it is no list of groups.
pub fn groups_of(matches: &ArgMatches) -> Result<Groups, GroupsFault> {
    let list = matches
        .subcommand()
        .and_then(|(_, words)| words.get_str("groups"));
    match list {
        Some(list) => Groups::read(list),
        None => Ok(Groups::none()),
    }
}

// What the options ask of bases.
fn policy_of(words: &ArgMatches, groups: Groups) -> Option<Policy> {
    Some(Policy {
        ceiling: Pence::new(words.get_one::<u16>("ceiling")?)?,
        keyings: words.get_one::<u16>("keyings")?,
        groups,
    })
}

// A page that an option names.
fn page_of(words: &ArgMatches, name: &str) -> Option<PageNo> {
    PageNo::new(words.get_one::<u32>(name)?)
}

// What a map shows.
fn view_of(words: &ArgMatches) -> View {
    let most = words.get_one::<u16>("within");
    match (page_of(words, "page"), page_of(words, "to")) {
        (Some(page), _) => View::From(page, most),
        (None, Some(page)) => View::To(page, most),
        (None, None) => View::Whole,
    }
}

// The frame that a word names: an id, or a page for its frame `a`.
fn frame_of(word: &str) -> Option<FrameId> {
    match (FrameId::read(word), PageNo::read(word)) {
        (Ok(id), _) => Some(id),
        (_, Ok(page)) => Some(FrameId::first(page)),
        (Err(_), Err(_)) => None,
    }
}

// The form that a word names.
fn form_of(word: &str) -> Option<Form> {
    match word {
        "text" => Some(Form::Text),
        "ansi" => Some(Form::Ansi),
        "svg" => Some(Form::Svg),
        "cells" => Some(Form::Cells),
        "link" => Some(Form::Link),
        _ => None,
    }
}

// The form of files of screens that a word names; without one it is the 960 codes.
fn saved_form_of(word: Option<&str>) -> SavedForm {
    match word {
        Some("ep1") => SavedForm::Ep1,
        Some("tti") => SavedForm::Tti,
        Some("link") => SavedForm::Link,
        _ => SavedForm::Cells,
    }
}

// The form of findings that a word names.
fn format_of(word: &str) -> Option<Format> {
    match word {
        "full" => Some(Format::Full),
        "line" => Some(Format::Line),
        "json" => Some(Format::Json),
        "github" => Some(Format::Github),
        _ => None,
    }
}

// The form of a list that a word names.
fn list_form_of(word: &str) -> Option<ListForm> {
    match word {
        "line" => Some(ListForm::Line),
        "json" => Some(ListForm::Json),
        _ => None,
    }
}

// With both flags nothing is changed.
fn fixing_of(words: &ArgMatches) -> Fixing {
    if words.get_flag("diff") {
        Fixing::Shown
    } else if words.get_flag("fix") {
        Fixing::Made
    } else {
        Fixing::None
    }
}

fn colouring_of(word: Option<&str>) -> Colouring {
    match word {
        Some("always") => Colouring::Always,
        Some("never") => Colouring::Never,
        _ => Colouring::Auto,
    }
}

// The warnings whose codes are among these words.
fn ignored_of(words: &[&str]) -> Ignored {
    let mut ignored = Ignored::NONE;
    for word in words {
        match *word {
            "UNREACHED" => ignored.unreached = true,
            "HIDDEN" => ignored.hidden = true,
            "LINEEND" => ignored.line_end = true,
            "ESCAPE" => ignored.escape = true,
            "MENU" => ignored.menu = true,
            "UNSOUGHT" => ignored.unsought = true,
            _ => (),
        }
    }
    ignored
}

// Which bases are linted, and how. Only one of them can be standard input.
fn lint_of<'a>(words: &'a ArgMatches, groups: Groups) -> Option<Request<'a>> {
    let bases = words.get_strs("BASE")?;
    if bases.iter().filter(|base| **base == "-").count() > 1 {
        return Some(Request::Misused {
            why: "only one BASE can be standard input",
        });
    }
    if bases.len() > 1 && bases.contains(&"-") && fixing_of(words) == Fixing::Made {
        return Some(Request::Misused {
            why: "--fix of standard input takes no other BASE",
        });
    }
    Some(Request::Lint(Lint {
        bases,
        format: words.get_str("format").and_then(format_of)?,
        colouring: colouring_of(words.get_str("color")),
        ignored: ignored_of(words.get_strs("ignore").unwrap_or(&[])),
        is_quiet: words.get_flag("quiet"),
        policy: policy_of(words, groups)?,
        fixing: fixing_of(words),
        denied: if words.get_flag("deny-warnings") {
            Level::Warning
        } else {
            Level::Error
        },
    }))
}

// The policy of a file for a browser. Without a number, all is allowed.
fn html_policy(words: &ArgMatches, groups: Groups) -> Option<Policy> {
    Some(Policy {
        ceiling: Pence::new(words.get_one::<u16>("ceiling").unwrap_or(MOST_PENCE))?,
        keyings: words.get_one::<u16>("keyings").unwrap_or(MOST_RANK),
        groups,
    })
}

// Which base is written for a browser, and how.
fn pages_of<'a>(words: &'a ArgMatches, groups: Groups) -> Option<Request<'a>> {
    if words.get_str("FRAME").is_some() || words.get_str("keys").is_some() {
        return Some(Request::Misused {
            why: "--as html writes all frames, without FRAME or --keys",
        });
    }
    Some(Request::Pages(Pages {
        base: words.get_str("BASE")?,
        policy: html_policy(words, groups)?,
        view: match page_of(words, "page") {
            Some(page) => View::From(page, words.get_one::<u16>("within")),
            None => View::Whole,
        },
        out: words.get_str("out"),
    }))
}

// Whether there is an option that goes with the form html alone.
fn has_html_option(words: &ArgMatches) -> bool {
    words.get_one::<u16>("ceiling").is_some()
        || words.get_one::<u16>("keyings").is_some()
        || words.get_one::<u32>("page").is_some()
}

// What is shown, and how.
fn show_of<'a>(words: &'a ArgMatches, groups: Groups) -> Option<Request<'a>> {
    if words.get_str("as") == Some("html") {
        return pages_of(words, groups);
    }
    if has_html_option(words) {
        return Some(Request::Misused {
            why: "--ceiling, --keyings, --page and --within go with --as html",
        });
    }
    screen_of(words, groups)
}

// Which screen is shown, and how.
fn screen_of<'a>(words: &'a ArgMatches, groups: Groups) -> Option<Request<'a>> {
    let frame = match words.get_str("FRAME") {
        None => None,
        Some(word) => match frame_of(word) {
            Some(id) => Some(id),
            None => return Some(Request::NoFrame { word }),
        },
    };
    Some(Request::Show(Show {
        base: words.get_str("BASE")?,
        frame,
        keys: words.get_str("keys"),
        form: words.get_str("as").and_then(form_of),
        out: words.get_str("out"),
        groups,
    }))
}

// Which screens make a base, and how.
fn import_of<'a>(words: &'a ArgMatches) -> Option<Request<'a>> {
    let into = words.get_str("into");
    let is_shown = words.get_flag("diff");
    if is_shown && into.is_none() {
        return Some(Request::Misused {
            why: "--diff shows what --into would change",
        });
    }
    Some(Request::Import(Import {
        screens: words.get_strs("SCREEN")?,
        kind: if words.get_flag("stream") {
            FileKind::Stream
        } else {
            FileKind::Cells
        },
        skip_bad: words.get_flag("skip-bad"),
        guesses: words.get_flag("routes"),
        entry: page_of(words, "entry"),
        into,
        is_shown,
    }))
}

// Which base's screens are written, and where.
fn export_of<'a>(words: &'a ArgMatches, groups: Groups) -> Option<Request<'a>> {
    Some(Request::Export(Export {
        base: words.get_str("BASE")?,
        out: words.get_str("out")?,
        form: saved_form_of(words.get_str("as")),
        force: words.get_flag("force"),
        groups,
    }))
}

// Which certificate is checked. Only one of two files can be standard input.
fn check_of<'a>(words: &'a ArgMatches, groups: Groups) -> Option<Request<'a>> {
    let (base, cert) = (words.get_str("BASE")?, words.get_str("CERT")?);
    if base == "-" && cert == "-" {
        return Some(Request::Misused {
            why: "BASE and CERT can't both be standard input",
        });
    }
    Some(Request::Check {
        base,
        cert,
        policy: policy_of(words, groups)?,
    })
}

// What a call is asked for.
fn serve_of<'a>(words: &'a ArgMatches) -> Option<Request<'a>> {
    Some(Request::Serve(Serve {
        folder: words.get_str("FOLDER")?,
        form: if words.get_str("as") == Some("ansi") {
            CallForm::Ansi
        } else {
            CallForm::Viewdata
        },
        is_logged: words.get_flag("log"),
    }))
}

// What a publish is asked for.
fn publish_of<'a>(words: &'a ArgMatches) -> Option<Request<'a>> {
    Some(Request::Publish(Publish {
        base: words.get_str("BASE")?,
        folder: words.get_str("FOLDER")?,
        dry_run: words.get_flag("dry-run"),
        new_callers: words.get_flag("new-callers"),
        deny_warnings: words.get_flag("deny-warnings"),
        page: words.get_str("page"),
    }))
}

fn audit_of<'a>(words: &'a ArgMatches, groups: Groups) -> Option<Request<'a>> {
    Some(Request::Audit {
        base: words.get_str("BASE")?,
        out: words.get_str("out"),
        policy: policy_of(words, groups)?,
    })
}

fn change_of<'a>(words: &'a ArgMatches, groups: Groups) -> Option<Request<'a>> {
    Some(Request::Change {
        old: words.get_str("OLD")?,
        old_cert: words.get_str("OLDCERT")?,
        new: words.get_str("NEW")?,
        new_cert: words.get_str("NEWCERT")?,
        policy: policy_of(words, groups)?,
    })
}

/// What the words ask for, by a caller of these groups. There always is a request: clap has taken each word that a command
/// requires.
pub fn asked_for<'a>(matches: &'a ArgMatches, groups: Groups) -> Option<Request<'a>> {
    match matches.subcommand()? {
        ("lint", words) => lint_of(words, groups),
        ("audit", words) => audit_of(words, groups),
        ("check", words) => check_of(words, groups),
        ("change", words) => change_of(words, groups),
        ("walk", words) => Some(Request::Walk {
            base: words.get_str("BASE")?,
            keys: words.get_str("KEYS")?,
            groups,
        }),
        ("show", words) => show_of(words, groups),
        ("list", words) => Some(Request::List {
            base: words.get_str("BASE")?,
            form: words.get_str("format").and_then(list_form_of)?,
            groups,
        }),
        ("map", words) => Some(Request::Map {
            base: words.get_str("BASE")?,
            view: view_of(words),
            groups,
        }),
        ("import", words) => import_of(words),
        ("export", words) => export_of(words, groups),
        ("serve", words) => serve_of(words),
        ("publish", words) => publish_of(words),
        ("editions", words) => Some(Request::Editions {
            folder: words.get_str("FOLDER")?,
            verify: words.get_flag("verify"),
        }),
        ("explain", words) => Some(Request::Explain {
            word: words.get_str("CODE"),
        }),
        _ => None,
    }
}
