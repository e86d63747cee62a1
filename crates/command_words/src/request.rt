//! What the words ask for.

use audit_report::ListForm;
use checker::Policy;
use finder::View;
use finding_forms::Format;
use frame_records::Groups;
use lint::{Ignored, Level};
use page_ids::{FrameId, PageNo};
use screen_files::FileKind;
use screen_forms::{Form, SavedForm};

/// What is done about slips that can have meant only one thing.
#[derive(Debug, Clone, Copy, PartialEq, Eq)]
pub enum Fixing {
    /// They are found as all others.
    None,
    /// They are fixed in the base's file; of standard input, in what is printed.
    Made,
    /// What would be fixed is printed as a diff.
    Shown,
}

/// When findings in the form `full` are in colour.
#[derive(Debug, Clone, Copy, PartialEq, Eq)]
pub enum Colouring {
    /// If standard output is a terminal and `NO_COLOR` is unset or empty.
    Auto,
    Always,
    Never,
}

/// Which bases are linted, and how.
#[derive(Drop)]
pub struct Lint<'a> {
    /// At least one. `-` is standard input.
    pub bases: &'a [&'a str],
    pub format: Format,
    pub colouring: Colouring,
    /// These warnings don't count and aren't written.
    pub ignored: Ignored,
    /// Whether warnings count and aren't written.
    pub is_quiet: bool,
    pub policy: Policy,
    pub fixing: Fixing,
    /// The least level of a finding that makes the exit status 1.
    pub denied: Level,
}

/// Which screen is shown, and how.
#[derive(Drop)]
pub struct Show<'a> {
    pub base: &'a str,
    /// The frame; without it and without keys it is the entry frame.
    pub frame: Option<FrameId>,
    /// The keys of a session, of which the last screen is shown. There is no frame beside them.
    pub keys: Option<&'a str>,
    /// The form; without it one that suits standard output.
    pub form: Option<Form>,
    /// The file that is written; without it standard output.
    pub out: Option<&'a str>,
    pub groups: Groups,
}

/// Which base is written for a browser, and how.
#[derive(Drop)]
pub struct Pages<'a> {
    pub base: &'a str,
    pub policy: Policy,
    pub view: View,
    /// The file that is written; without it standard output.
    pub out: Option<&'a str>,
}

/// Which screens make a base, and how.
#[derive(Drop)]
pub struct Import<'a> {
    /// The files and folders, at least one.
    pub screens: &'a [&'a str],
    pub kind: FileKind,
    /// Whether the base of the others is printed if some are at fault.
    pub skip_bad: bool,
    /// Whether the routes of new frames are guessed.
    pub guesses: bool,
    /// The entry page; without it the smallest page.
    pub entry: Option<PageNo>,
    /// The base that the frames go into; without one they are a base of their own.
    pub into: Option<&'a str>,
    /// Whether a diff of that base is printed, and the base stays as it is.
    pub is_shown: bool,
}

/// Which base's screens are written, and where.
#[derive(Drop)]
pub struct Export<'a> {
    pub base: &'a str,
    /// The folder.
    pub out: &'a str,
    /// The form of each file.
    pub form: SavedForm,
    /// Whether files that are there are replaced.
    pub force: bool,
    pub groups: Groups,
}

/// What a caller of `serve` has.
#[derive(Debug, Clone, Copy, PartialEq, Eq)]
pub enum CallForm {
    /// A viewdata terminal.
    Viewdata,
    /// A terminal of 24 rows and 80 columns with colours.
    Ansi,
}

/// Which folder is opened to a caller, and how.
#[derive(Drop)]
pub struct Serve<'a> {
    /// The folder of editions.
    pub folder: &'a str,
    pub form: CallForm,
    /// Whether the call is noted on standard error.
    pub is_logged: bool,
}

/// Which base is published, and how.
#[derive(Drop)]
pub struct Publish<'a> {
    pub base: &'a str,
    /// The folder of editions.
    pub folder: &'a str,
    /// Whether nothing is written.
    pub dry_run: bool,
    /// Whether a refused change is published only for new callers.
    pub new_callers: bool,
    /// Whether warnings stop it.
    pub deny_warnings: bool,
    /// The HTML file of the published base.
    pub page: Option<&'a str>,
}

/// What the words ask for. Files are named by their paths.
#[derive(Drop)]
pub enum Request<'a> {
    /// Every fault of bases, each at its place.
    Lint(Lint<'a>),
    /// The certificate of a base, in a file of its own if one is named, or its faults.
    Audit {
        base: &'a str,
        out: Option<&'a str>,
        policy: Policy,
    },
    /// The verdict on a certificate.
    Check {
        base: &'a str,
        cert: &'a str,
        policy: Policy,
    },
    /// The verdict on a change from one edition to another.
    Change {
        old: &'a str,
        old_cert: &'a str,
        new: &'a str,
        new_cert: &'a str,
        policy: Policy,
    },
    /// What a caller of these groups sees who presses these keys.
    Walk {
        base: &'a str,
        keys: &'a str,
        groups: Groups,
    },
    /// A screen.
    Show(Show<'a>),
    /// A base as an HTML file.
    Pages(Pages<'a>),
    /// Words that don't go together: why.
    Misused {
        why: &'static str,
    },
    /// A word in a frame's place that names none.
    NoFrame {
        word: &'a str,
    },
    /// The frames of a base, for a caller of these groups.
    List {
        base: &'a str,
        form: ListForm,
        groups: Groups,
    },
    /// The graph of a view of a base, for a caller of these groups.
    Map {
        base: &'a str,
        view: View,
        groups: Groups,
    },
    /// A base of saved screens.
    Import(Import<'a>),
    /// The screens of a base, each in a file.
    Export(Export<'a>),
    /// A call of the current edition of a folder.
    Serve(Serve<'a>),
    /// A base is published as the next edition of a folder.
    Publish(Publish<'a>),
    /// The editions of a folder, listed or verified.
    Editions {
        folder: &'a str,
        verify: bool,
    },
    /// What a printed word means, or all words.
    Explain {
        word: Option<&'a str>,
    },
}
