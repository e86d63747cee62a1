ghost use Rattle.std.specs.Prelude.{◌≡◌};

use crate::about::About;
use crate::code::Code;
use crate::line::Line;
use std::marker::Model;

/// What is said of a finding, apart from its place. It is printed as `X6 Range: MESSAGE; HINT`.
#[derive(Debug, Drop)]
pub struct Words {
    code: Code,
    about: About,
    message: Line,
    hint: Option<Line>,
}

impl Model for Words {
    ghost use Rattle.lint_words.specs.WordsOf.{WordsView};

    ghost Value = { WordsView };

    ghost view = { λ w. record { code = w.code; about = w.about; message = w.message } };
}

impl Words {
    ghost use Rattle.std.specs.Prelude.{◌≡◌, IfSome, option_copied};
    ghost use Rattle.lint_words.specs.Lines.{IsLine};
    ghost use Rattle.lint_words.specs.WordsOf.{WordsView, words_of};

    // Contracts don't see a hint: it is a line, and nothing else is promised of it.
    pub(crate) fn new(code: Code, about: About, message: Line, hint: Option<Line>) -> Words
        ensures { result ≡ words_of code about message }
    {
        Words {
            code,
            about,
            message,
            hint,
        }
    }

    pub fn code(&self) -> Code
        ensures { result ≡ self.now.code }
    {
        self.code
    }

    /// What it is about.
    pub fn about(&self) -> &About
        ensures { result.now ≡ self.now.about }
    {
        &self.about
    }

    /// What is wrong.
    pub fn message(&self) -> &Line
        ensures { result.now ≡ self.now.message }
    {
        &self.message
    }

    /// How to fix it, if there is more to say. An empty hint is none.
    pub fn hint(&self) -> Option<&Line>
        ensures { IfSome (option_copied result) IsLine }
    {
        match &self.hint {
            Some(hint) if !hint.as_str().is_empty() => Some(hint),
            _ => None,
        }
    }
}
