use lint_words::Words;
use std::marker::Model;
use toml_places::Span;

/// How bad a finding is.
#[derive(Debug, Clone, Copy, PartialEq, Eq)]
pub enum Level {
    Error,
    Warning,
}

/// Something that was found in a base's text.
#[derive(Debug, Drop)]
pub struct Finding {
    /// The smallest piece of the text that is at fault.
    pub span: Span,
    pub level: Level,
    pub words: Words,
}

impl Model for Finding {
    ghost use Rattle.lint.specs.Findings.{FindingView};

    ghost Value = { FindingView };

    ghost view = { λ f. record { span = f.span; level = f.level; words = f.words } };
}

impl Finding {
    ghost use Rattle.std.specs.Prelude.{◌≡◌};
    ghost use Rattle.lint.specs.Findings.{error_at, warning_at};

    pub(crate) fn error(span: Span, words: Words) -> Finding
        ensures { result ≡ error_at span words }
    {
        Finding {
            span,
            level: Level::Error,
            words,
        }
    }

    pub(crate) fn warning(span: Span, words: Words) -> Finding
        ensures { result ≡ warning_at span words }
    {
        Finding {
            span,
            level: Level::Warning,
            words,
        }
    }
}
