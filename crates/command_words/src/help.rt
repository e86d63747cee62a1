//! What follows the options in each command's help: an example, and the exit statuses.

/// The program's version, which the list of changes names too.
pub const VERSION: &str = "1.2.0";

/// After the commands.
pub const COMMANDS: &str = concat!(
    "Look: show, list, walk, map. Draw: import, export. Judge: lint, audit, check, change.\n",
    "Publish: publish, editions, serve. Look up a printed word: explain.",
);

/// After the options of `lint`.
pub const LINT: &str = concat!(
    "--fix changes only those slips in the file: 'price = \"5\"' becomes 'price = 5'. What a frame shows\n",
    "stays. For standard input it prints the fixed text, and the findings on standard error.\n",
    "Warnings that --ignore names don't count; with -q they count and aren't printed. Colours are for\n",
    "the form full; auto is off if NO_COLOR isn't empty. An object of JSON has file, level, code, message,\n",
    "hint, frame, key and keys, its span as line, column, end_line and end_column, both counted from 1,\n",
    "and fix: null, or a span and its new text.\n\n",
    "Examples: pageaudit lint examples/town.toml\n",
    "          pageaudit lint town.toml --fix\n\n",
    "Status: 0 no error, 1 errors, with --deny-warnings warnings too, with --diff only a diff,\n",
    "        2 bad command line, 3 a file that can't be read, or a write that fails, 4 out of memory",
);

/// After the options of `audit`.
pub const AUDIT: &str = concat!(
    "Example: pageaudit audit examples/demo.toml --ceiling 50 --keyings 3 --out demo.cert\n\n",
    "Status: 0 a certificate, 1 faults, 2 bad command line,\n",
    "        3 a file that is refused or can't be read, or a write that fails, 4 out of memory",
);

/// After the options of `check`.
pub const CHECK: &str = concat!(
    "Example: pageaudit check examples/demo.toml examples/demo.cert --ceiling 50 --keyings 3\n\n",
    "Status: 0 cleared, 1 refused, 2 bad command line,\n",
    "        3 a file that is refused or can't be read, or a write that fails, 4 out of memory",
);

/// After the options of `change`.
pub const CHANGE: &str = concat!(
    "Example: pageaudit change old.toml old.cert new.toml new.cert --ceiling 50 --keyings 3\n\n",
    "Status: 0 cleared, 1 refused, 2 bad command line,\n",
    "        3 a file that is refused or can't be read, or a write that fails, 4 out of memory",
);

/// After the options of `walk`.
pub const WALK: &str = concat!(
    "'show --keys' shows the screen after keys.\n\n",
    "Example: pageaudit walk examples/demo.toml '1#*#*00'\n\n",
    "Status: 0 a walk, 1 no session, 2 bad command line or keys,\n",
    "        3 a file that is refused or can't be read, or a write that fails, 4 out of memory",
);

/// After the options of `show`.
pub const SHOW: &str = concat!(
    "A frame is shown over those on the way to it that 'list' prints. Without --as the form is ansi\n",
    "if standard output is a terminal and NO_COLOR is unset or empty, else text. Mosaics are the\n",
    "characters U+1FB00 and on: a font that lacks them shows boxes.\n\n",
    "--as html writes one file for any browser, without a network: all frames with their ways and\n",
    "faults, to walk through by keys. --page and --within take a part of the base, as for 'map'.\n\n",
    "Examples: pageaudit show examples/town.toml --keys '1#'\n",
    "          xdg-open \"$(pageaudit show examples/town.toml 4785 --as link)\"\n",
    "          pageaudit show examples/town.toml --as html --out town.html\n\n",
    "Status: 0 a screen or file, 1 a session that can't be opened or leaves the base,\n",
    "        2 bad command line or keys, or no frame FRAME,\n",
    "        3 a file that is refused or can't be read, or a write that fails, 4 out of memory",
);

/// After the options of `list`.
pub const LIST: &str = concat!(
    "A frame that is closed to the caller is listed as UNREACHED: this is a list, not a warning.\n\n",
    "An object of JSON has frame, reached, rank, price, group and script, or frame and fault.\n\n",
    "Example: pageaudit list examples/town.toml\n\n",
    "Status: 0 a list, 1 an entry frame that is missing or closed, 2 bad command line,\n",
    "        3 a file that is refused or can't be read, or a write that fails, 4 out of memory",
);

/// After the options of `map`.
pub const MAP: &str = concat!(
    "A frame that is closed to the caller is red, one that no key reaches is dashed. What the base\n",
    "lacks is red, the entry page too, or an ellipse if its page is outside.\n\n",
    "No key leads to a frame that is closed to the caller: --page shows none but its own page's, and\n",
    "--to those whose keys lead to PAGE.\n\n",
    "Example: pageaudit map examples/town.toml | dot -Tsvg >town.svg\n\n",
    "Status: 0 a map, 2 bad command line, or no frame a of PAGE,\n",
    "        3 a file that is refused or can't be read, or a write that fails, 4 out of memory",
);

/// After the options of `import`.
pub const IMPORT: &str = concat!(
    "A file of 960 bytes is 24 rows of 40 codes; 1,000 and 1,024 bytes have more, which is dropped;\n",
    "880 bytes are rows 1 to 22. An EP1 file has 968 or 1,008 bytes. A text has pages of TTI, or an\n",
    "address of edit.tf or zxnet in each line, after the frame's id. A capture has many screens: each\n",
    "is the frame whose id its row 0 shows. A folder is the files in it, without those in its folders.\n",
    "The base has no routes: type them in, or let --routes guess them: on page 478 a key 2 that the\n",
    "screen shows leads to page 4782, and 0 to page 47, if the base has it.\n",
    "--into replaces what the frames of BASE show, their list of rows or body with the comments inside,\n",
    "unless they show it already, and adds the others at its end. Nothing else changes, and a frame with\n",
    "lead = \"keep\" stays as it is. With --into - the base is standard input, and the new one is printed.\n\n",
    "Examples: pageaudit import examples/screens/*.bin >town.toml\n",
    "          pageaudit import 478a.bin --into town.toml\n\n",
    "Status: 0 a base, 1 without the frames at fault (--skip-bad), or a diff, 2 bad command line,\n",
    "        3 a file that is refused or can't be read, two frames of one id, or a write that fails,\n",
    "        4 out of memory",
);

/// After the options of `export`.
pub const EXPORT: &str = concat!(
    "The files are named by frame and form, as 478a.bin. One of the form bin has the 960 codes that\n",
    "'show --as cells' writes, one of ep1 the same for editors of teletext, one of tti its rows 0 to 22\n",
    "as lines for them, and one of link a line with the frame's id and its address, at which edit.tf\n",
    "shows it.\n\n",
    "Examples: pageaudit export examples/town.toml --out screens\n",
    "          pageaudit export examples/town.toml --out links --as link && cat links/*.link\n\n",
    "Status: 0 all screens, 2 bad command line,\n",
    "        3 a file that is refused or can't be read, is there already, or can't be written,\n",
    "        4 out of memory",
);

/// After the options of `serve`.
pub const SERVE: &str = concat!(
    "The caller is on standard input and output, as socat, systemd or sshd puts them on a line. The\n",
    "edition is checked by its own policy before anything is sent. One that is published during the\n",
    "call takes its place before the next key, if the check clears the change. *90# ends the call, and\n",
    "so does the caller who leaves or rings off.\n\n",
    "With --as ansi each answer is the whole screen, and Enter is #.\n\n",
    "Examples: socat tcp-listen:6502,fork,reuseaddr,backlog=128 exec:'pageaudit serve live'\n",
    "          sh -c 'stty -icanon -echo; pageaudit serve live --as ansi; stty sane'\n\n",
    "Status: 0 a call that ended, 1 an edition that isn't cleared, 2 bad command line,\n",
    "        3 a file that is missing, refused or can't be read, or a line that fails,\n",
    "        4 out of memory",
);

/// After the options of `explain`.
pub const EXPLAIN: &str = concat!(
    "Example: pageaudit explain K7\n\n",
    "Status: 0 an explanation or the list, 2 an unknown word, 3 a write that fails, 4 out of memory",
);

/// After the options of `publish`.
pub const PUBLISH: &str = concat!(
    "The folder has policy.toml, with ceiling, keyings and perhaps groups; an edition in each of\n",
    "editions/1, editions/2 and so on; and current, the number of the edition that is served. It is\n",
    "made if it isn't there. An edition never changes, and whatever stops a publish, current names a\n",
    "whole one: copy editions/ before current. A base that is served already is not published again.\n\n",
    "Example: pageaudit publish examples/town.toml live\n\n",
    "Status: 0 published, 1 findings or a refused change, 2 bad command line,\n",
    "        3 a file that is refused or can't be read or written, 4 out of memory",
);

/// After the options of `editions`.
pub const EDITIONS: &str = concat!(
    "Without --verify each edition has a line: its frames, what changed from the edition that it\n",
    "follows, and whether it is served. With --verify what is wrong is named, and the verdict printed:\n",
    "after CLEARED no caller, in whichever edition they began, met a frame that is missing or closed\n",
    "while one edition followed another.\n\n",
    "Example: pageaudit editions live --verify\n\n",
    "Status: 0 listed, or all is cleared, 1 something isn't, 2 bad command line,\n",
    "        3 a file that is missing, refused or can't be read, 4 out of memory",
);
