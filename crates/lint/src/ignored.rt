ghost use Rattle.std.specs.Prelude.{◌≡◌, filter};
ghost use Rattle.lint.specs.Findings.{ignores, is_counted, is_error};

use crate::finding::{Finding, Level};
use lint_words::Code;

/// The warnings that don't count, by their codes.
#[derive(Debug, Clone, Copy)]
pub struct Ignored {
    pub unreached: bool,
    pub hidden: bool,
    pub line_end: bool,
    pub escape: bool,
    pub menu: bool,
    pub unsought: bool,
}

impl Ignored {
    /// Each warning counts.
    pub const NONE: Ignored = Ignored {
        unreached: false,
        hidden: false,
        line_end: false,
        escape: false,
        menu: false,
        unsought: false,
    };

    fn has(&self, code: Code) -> bool
        ensures { result ≡ ignores self.now code }
    {
        match code {
            Code::Unreached => self.unreached,
            Code::Hidden => self.hidden,
            Code::LineEnd => self.line_end,
            Code::Escape => self.escape,
            Code::Menu => self.menu,
            Code::Unsought => self.unsought,
            _ => false,
        }
    }

    /// Removes the warnings that don't count. Errors stay; the others keep their order.
    pub fn remove_from(&self, findings: &mut Vec<Finding>)
        ensures { findings.new.items ≡ filter (is_counted self.now) findings.old.items }
    {
        findings.retain(|finding| !self.has(finding.words.code()));
    }
}

/// Removes all warnings. Errors keep their order.
pub fn remove_warnings(findings: &mut Vec<Finding>)
    ensures { findings.new.items ≡ filter is_error findings.old.items }
{
    findings.retain(|finding| finding.level == Level::Error);
}
