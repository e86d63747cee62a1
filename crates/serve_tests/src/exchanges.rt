//! Calls while other editions are published.

ghost use Rattle.std.specs.Prelude.{None, false};

use crate::line::{Notes, copied};
use editions::{EditionFile, EditionFolder, StoreFault};
use one_call::serve;
use std::alloc::Global;
use std::test::Fail;
use terminal_codes::Terminal;
use test_support::{CERT, DEMO, FakeSink, FakeSource, same_in};

// An edition of the base DEMO: the text of `follows`, and what its entry frame says in place of WELCOME.
#[derive(Debug, Clone, Copy)]
struct Edition {
    number: u32,
    follows: &'static str,
    says: &'static str,
    policy: &'static str,
}

const POLICY: &str = "ceiling = 5\nkeyings = 1\n";

// 4 is another beginning, 5 isn't cleared by its own policy, 6 is for callers of other groups, and of 7 `follows` is half written.
const EDITIONS: [Edition; 7] = [
    Edition {
        number: 1,
        follows: "-\n",
        says: "WELCOME",
        policy: POLICY,
    },
    Edition {
        number: 2,
        follows: "1\n",
        says: "GOODDAY",
        policy: POLICY,
    },
    Edition {
        number: 3,
        follows: "2\n",
        says: "EVENING",
        policy: POLICY,
    },
    Edition {
        number: 4,
        follows: "-\n",
        says: "ANOTHER",
        policy: POLICY,
    },
    Edition {
        number: 5,
        follows: "1\n",
        says: "REFUSED",
        policy: "ceiling = 4\nkeyings = 1\n",
    },
    Edition {
        number: 6,
        follows: "1\n",
        says: "MEMBERS",
        policy: "ceiling = 5\nkeyings = 1\ngroups = [7]\n",
    },
    Edition {
        number: 7,
        follows: "1",
        says: "HALFWAY",
        policy: POLICY,
    },
];

// A folder of these editions: what `current` says at each look, the last one for good; how often it was looked at, and how many other
// files were read.
#[derive(Drop)]
struct Published<'a> {
    currents: &'a [&'a str],
    looks: usize,
    files: usize,
}

fn text_of(
    alloc: Global,
    edition: &Edition,
    file: EditionFile,
) -> Result<Option<Vec<u8>>, StoreFault> {
    match file {
        EditionFile::Base => match DEMO.replacen(alloc, "WELCOME", edition.says, 1) {
            Ok(text) => copied(alloc, text.as_str()),
            Err(_) => Err(StoreFault::Memory),
        },
        EditionFile::Cert => copied(alloc, CERT),
        EditionFile::Policy => copied(alloc, edition.policy),
        EditionFile::Follows => copied(alloc, edition.follows),
        EditionFile::Sums => Err(StoreFault::Broken),
    }
}

impl EditionFolder for Published<'_> {
    ghost seen = { λ s. record { state = None; held = false } };

    fn read_current(&mut self, alloc: Global) -> Result<Option<Vec<u8>>, StoreFault> {
        let look = self.looks.min(self.currents.len().saturating_sub(1));
        self.looks = self.looks.saturating_add(1);
        match self.currents.get(look) {
            Some(current) => copied(alloc, current),
            None => Ok(None),
        }
    }

    fn read_policy(&mut self, _alloc: Global) -> Result<Option<Vec<u8>>, StoreFault> {
        Err(StoreFault::Broken)
    }

    fn read_file(
        &mut self,
        alloc: Global,
        number: u32,
        file: EditionFile,
    ) -> Result<Option<Vec<u8>>, StoreFault> {
        self.files = self.files.saturating_add(1);
        for edition in &EDITIONS {
            if edition.number == number {
                return text_of(alloc, edition, file);
            }
        }
        Ok(None)
    }
}

// What `current` says at the beginning and before each byte of `*00`; what is noted; the entry frame then; how many files were read.
const CALLS: [(&[&str], &str, &str, usize); 14] = [
    (&["1\n"], "+1k", "WELCOME", 3),
    // the next edition
    (&["1\n", "1\n", "2\n"], "+1>2k", "GOODDAY", 7),
    // right before the last byte
    (&["1\n", "1\n", "1\n", "2\n"], "+1>2k", "GOODDAY", 7),
    // one after another, and two at once
    (&["1\n", "2\n", "3\n"], "+1>2>3k", "EVENING", 11),
    (&["1\n", "3\n"], "+1>3k", "EVENING", 12),
    // half written, then whole
    (&["1\n", "2", "2\n"], "+1>2k", "GOODDAY", 7),
    (&["1\n", "!", "2\n"], "+1>2k", "GOODDAY", 7),
    // another beginning; an earlier one; one that is refused, by its policy and for its callers: each is read once
    (&["1\n", "4\n"], "+1k", "WELCOME", 4),
    (&["2\n", "1\n"], "+2k", "GOODDAY", 3),
    (&["1\n", "5\n"], "+1k", "WELCOME", 7),
    (&["1\n", "6\n"], "+1k", "WELCOME", 7),
    // one that can't be read is tried again at each byte
    (&["1\n", "7\n", "7\n", "2\n"], "+1>2k", "GOODDAY", 9),
    // one that was refused is tried again after another
    (&["1\n", "5\n", "2\n", "1\n"], "+1>2k", "GOODDAY", 11),
    (&["1\n", "5\n", "1\n", "5\n"], "+1k", "WELCOME", 11),
];

// Row 1 of the terminal of a caller.
fn first_row(taken: &[u8]) -> [u8; 7] {
    let mut terminal = Terminal::new();
    terminal.run(taken);
    let mut codes = [0; 7];
    for (code, cell) in codes.iter_mut().zip(terminal.cells().iter().skip(40)) {
        *code = *cell;
    }
    codes
}

#[test]
fn caller_is_taken_to_what_is_cleared(rt: HostRuntime) -> Result<(), Fail> {
    let alloc = rt.alloc();
    for (currents, noted, says, files) in CALLS {
        let mut folder = Published {
            currents,
            looks: 0,
            files: 0,
        };
        let mut source = FakeSource::of(b"*00", 1);
        let mut sink = FakeSink::of(alloc, 1_000);
        let mut notes = Notes::new(alloc);
        let end = serve(alloc, &mut folder, &mut source, &mut sink, &mut notes);
        same_in(currents, end.is_ok(), true)?;
        same_in(currents, notes.text.as_slice(), noted.as_bytes())?;
        same_in(
            currents,
            first_row(sink.taken.as_slice()).as_slice(),
            says.as_bytes(),
        )?;
        same_in(currents, folder.files, files)?;
    }
    Ok(())
}
