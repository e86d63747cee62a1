//! What the laws of looks, of texts and of printed forms say.

ghost use Rattle.std.specs.Prelude.{◌≡◌, ◌++◌, ◌<◌, ◌⊎◌, ℕ, Bool, List, Option, All, get_or, length, map, true};
ghost use Rattle.screens.specs.declared.look.Glyph.TheVariants.{Char};
ghost use Rattle.screens.specs.declared.look.Look.{Look};
ghost use Rattle.screens.specs.declared.look.Shown.TheVariants.{Ground};
ghost use Rattle.screens.specs.Table.{start};
ghost use Rattle.screens.specs.Looks.{row_looks, shown, looks_at};
ghost use Rattle.screens.specs.Laws.{RowsDecide, plain_look, ChangesGlyphs, IsOfTables};
ghost use Rattle.screens.specs.Text.{seen_char, line};
ghost use Rattle.checker.specs.declared.policy.Policy.{Policy};
ghost use Rattle.fault_scripts.specs.declared.outcome.Outcome.{Outcome};
ghost use Rattle.fault_scripts.specs.declared.outcome.Outcome.TheVariants.{Certified};
ghost use Rattle.fault_scripts.specs.Outcomes.{IsOutcome};
ghost use Rattle.page_ids.specs.Ids.{Id};
ghost use Rattle.frame_records.specs.Bases.{BaseView, IsBase};
ghost use Rattle.cert_table.specs.Table.{CertView};
ghost use Rattle.finder.specs.declared.found.Discovered.{Discovered};
ghost use Rattle.finder.specs.Finds.{IsFinding};
ghost use Rattle.screens.specs.Laws.{tags_of};
ghost use Rattle.lint.specs.FrameLines.{SentenceView};
ghost use Rattle.base_pages.specs.Sections.{BookView, SourceView, shown_frames};
ghost use Rattle.base_pages.specs.Tags.{page_tags, HaveIds};
ghost use Rattle.base_pages.specs.Reading.{sections_in};
ghost use Rattle.base_pages.specs.Said.{section_said};
ghost use Rattle.base_pages.specs.Links.{LinksAreWays, NoWayFails};
ghost use Rattle.base_pages.specs.Pages.{book, page};
ghost use Rattle.lint.specs.Findings.{FindingView};
ghost use Rattle.finding_forms.specs.declared.format.Format.{Format};
ghost use Rattle.finding_forms.specs.Forms.{ArePrinted, is_one_line};
ghost use Rattle.finding_forms.specs.Laws.{AreWholeLines};

use base_pages::{certified_ways_lead, file_has_its_tags, file_says_what_is_shown, links_lead};
use finding_forms::findings_are_whole_lines;
use screens::{
    characters_change_glyphs, each_row_decides, glyphs_are_of_tables, ground_shows, lines_show,
    plain_before,
};

fn rows_decide()
    ensures { (cells others : List ℕ) (r : ℕ) → RowsDecide cells others r }
{
    each_row_decides();
}

fn plain_at_first()
    ensures { (can : Bool) (front rest : List ℕ) → All (λ c. c < 0x80) front
        → row_looks (start can) (front ++ rest) ≡ map plain_look front ++ row_looks (start can) rest }
{
    plain_before();
}

fn glyphs_alone_change()
    ensures { (cells : List ℕ) (p d r : ℕ) → get_or cells p 0 < 0x80 → d < 0x80 → ChangesGlyphs cells p d r }
{
    characters_change_glyphs();
}

fn concealed_is_ground()
    ensures { (a : Look) → (a.concealed ≡ true) ⊎ (a.glyph ≡ Char 0x20) → shown a ≡ Ground a.background }
{
    ground_shows();
}

fn each_is_of_the_tables()
    ensures { (cells : List ℕ) (r : ℕ) → All (λ a. IsOfTables a.glyph) (looks_at cells r) }
{
    glyphs_are_of_tables();
}

fn columns_show()
    ensures { (row : List Look) (c : ℕ) → get_or (line row) c 0x20 ≡ get_or (map seen_char row) c 0x20 }
{
    lines_show();
}

// The HTML file of every base has the tags of its form and no others.
fn page_tags_alone()
    ensures { (policy : Policy) (outcome : Outcome) (b : BookView) →
        tags_of (page policy outcome b) ≡ page_tags policy outcome b }
{
    file_has_its_tags();
}

// Its sections are the frames, and say what is shown of them.
fn pages_say_what_is_shown()
    ensures { (policy : Policy) (outcome : Outcome) (b : BookView) →
        sections_in (page policy outcome b) ≡ map (section_said b) (shown_frames b b.base.frames) }
{
    file_says_what_is_shown();
}

// Its links are the ways.
fn pages_link_ways()
    ensures { (b : BookView) → HaveIds b.part b.base.frames → All (LinksAreWays b) (shown_frames b b.base.frames) }
{
    links_lead();
}

// That of a certified base has no missing or closed way in a section that callers reach.
fn certified_pages_lead()
    ensures { (source : SourceView) (base : BaseView) (policy : Policy) (part : Option (List Id))
        (found : List Discovered) (cert : CertView) (sentences : List SentenceView)
        → IsBase base → IsFinding policy.groups base found → IsOutcome base policy (Certified cert)
        → NoWayFails (sections_in (page policy (Certified cert)
        (book source base policy part found (Certified cert) sentences))) }
{
    certified_ways_lead();
}

fn a_line_each()
    ensures { (format : Format) (path text : List ℕ) (findings : List FindingView) (out : List ℕ) →
        is_one_line format ≡ true → ArePrinted format path text findings out
        → AreWholeLines format (length findings) out }
{
    findings_are_whole_lines();
}
