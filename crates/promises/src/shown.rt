//! What screens, texts, pictures and pages show.

ghost use Rattle.std.specs.Prelude.{◌≡◌, ◌++◌, ◌↔◌, ℕ, List, IfOk, OnOk, map, Option, false};
ghost use Rattle.page_ids.specs.Ids.{Id};
ghost use Rattle.page_ids.specs.declared.key.Key.{Key as KeyView};
ghost use Rattle.frame_records.specs.Bases.{BaseView, AreApart};
ghost use Rattle.cert_table.specs.Table.{CertView};
ghost use Rattle.terminal_codes.specs.Bodies.{lead_codes};
ghost use Rattle.terminal_codes.specs.Screen.{Screen, run};
ghost use Rattle.frame_records.specs.declared.frame.Lead.TheVariants.{Clear};
ghost use Rattle.base_text.specs.Rows.{body_of_rows};
ghost use Rattle.checker.specs.declared.policy.Policy.{Policy as PolicyView};
ghost use Rattle.checker.specs.declared.verdict.Verdict.TheVariants.{Cleared};
ghost use Rattle.checker.specs.Verdict.{verdict};
ghost use Rattle.screens.specs.Looks.{looks};
ghost use Rattle.screens.specs.declared.look.Look.{Look};
ghost use Rattle.screens.specs.Writing.{written};
ghost use Rattle.screens.specs.Text.{text};
ghost use Rattle.screens.specs.Ansi.{ansi};
ghost use Rattle.screens.specs.Svg.{picture, picture_pieces, svg, svg_pieces};
ghost use Rattle.screens.specs.declared.look.Height.{Height};
ghost use Rattle.screens.specs.Laws.{IsItsLines, IsRounded, IsSafe, raw, tags_of};
ghost use Rattle.frame_screens.specs.Frames.{IsKeyed, IsWay};
ghost use Rattle.frame_screens.specs.Screens.{screen_codes};
ghost use Rattle.frame_screens.specs.Laws.{IsHeadlineSeen};
ghost use Rattle.screen_files.specs.Rows.{rows_of};
ghost use Rattle.screen_forms.specs.Laws.{IsSavedScreen};
ghost use Rattle.screen_files.specs.Laws.{rows_alone};
ghost use Rattle.base_pages.specs.Pages.{IsPagesRun};
ghost use Rattle.screen_forms.specs.declared.forms.Form.TheVariants.{Ansi};
ghost use Rattle.pageaudit.specs.ShowRun.{screen_text};
ghost use Rattle.ansi_line.specs.AnsiReading.{below_rows, ansi_read};
ghost use Rattle.ansi_line.specs.Laws.{AreScreenRows, SameToTheEye, seen_cells};

use ansi_line::ansi_reads_back;
use audit_report::Sink;
use base_pages::{BaseSource, PagesFault, PagesStatus, write_pages};
use checker::Policy;
use finder::View;
use frame_records::{Base, Groups};
use frame_screens::{FrameList, NoScreen, frames_after, headline_is_seen, screen, way_to};
use page_ids::{FrameId, Key};
use screen_files::frames_show_screens;
use screens::{
    Looks, Writing, characters_are_safe, outlines_are_rounded, picture_reads_back, push_ansi,
    push_picture, push_svg, push_text, screen_looks, svg_reads_back, text_is_its_lines,
};
use std::alloc::{AllocError, Global};

// The frames that are sent after keys.
fn sent_after(
    alloc: Global,
    base: &Base,
    groups: &Groups,
    keys: &[Key],
) -> Result<FrameList, NoScreen>
    ensures { IsKeyed groups.now base.now keys.now result }
{
    frames_after(alloc, base, groups, keys)
}

// Those on the way that `list` prints.
fn sent_on_the_way(
    alloc: Global,
    base: &Base,
    groups: &Groups,
    id: FrameId,
) -> Result<FrameList, AllocError>
    ensures { IfOk result (IsWay groups.now base.now id) }
{
    way_to(alloc, base, groups, id)
}

// The screen of a new terminal after them, with the centre's rows.
fn screen_after(base: &Base, frames: &FrameList) -> [u8; 960]
    ensures { result ≡ screen_codes base.now frames.now }
{
    screen(base, frames)
}

// The headline, seen: on a cleared base no screen has anything of a frame in rows 0 and 23.
fn seen()
    ensures { (base : BaseView) (policy : PolicyView) (cert : CertView) → AreApart base
        → verdict base policy cert ≡ Cleared → (keys : List KeyView) → IsHeadlineSeen cert.groups base keys }
{
    headline_is_seen();
}

// A frame that is made of a saved screen shows its rows 1 to 22.
fn saved_rows()
    ensures { (t : Screen) (screen : List ℕ) → IsSavedScreen screen →
        (run (run t (lead_codes Clear)) (body_of_rows (rows_of screen))).cells ≡ rows_alone screen }
{
    frames_show_screens();
}

fn looks_of(cells: &[u8; 960]) -> Looks
    ensures { result ≡ looks cells.now }
{
    screen_looks(cells)
}

fn text_of(out: &mut Vec<u8>, looks: &Looks, writing: Writing) -> Result<(), AllocError>
    ensures { OnOk result (out.new.items ≡ out.old.items ++ written writing (text looks.now)) }
{
    push_text(out, looks, writing)
}

fn text_lines()
    ensures { (cells : List ℕ) → IsItsLines cells }
{
    text_is_its_lines();
}

fn ansi_of(out: &mut Vec<u8>, looks: &Looks) -> Result<(), AllocError>
    ensures { OnOk result (out.new.items ≡ out.old.items ++ ansi looks.now) }
{
    push_ansi(out, looks)
}

// What `show --as ansi` prints, read by the rules of SGR, shows the looks of its screen, and leaves nothing set; its rows fit a terminal.
fn ansi_shows()
    ensures shows { (base : BaseView) (ids : List Id) →
        ansi_read (screen_text Ansi base ids) ≡ below_rows (seen_cells (looks (screen_codes base ids))) }
    ensures fits { (cells : List ℕ) → AreScreenRows (seen_cells (looks cells)) }
{
    ansi_reads_back();
}

// Screens that a terminal shows as different cells have different texts, and others the same.
fn ansi_texts()
    ensures { (cells others : List ℕ) →
        ansi (looks cells) ≡ ansi (looks others) ↔ SameToTheEye (looks cells) (looks others) }
{
    ansi_reads_back();
}

fn picture_of(out: &mut Vec<u8>, id: FrameId, looks: &Looks) -> Result<(), AllocError>
    ensures { OnOk result (out.new.items ≡ out.old.items ++ picture id looks.now) }
{
    push_picture(out, id, looks)
}

// The letters of a picture are their dots, rounded.
fn rounded_letters()
    ensures { (h : Height) (c : ℕ) → IsRounded h c }
{
    outlines_are_rounded();
}

// That of an HTML file has letters as texts.
fn page_picture_of(
    out: &mut Vec<u8>,
    id: FrameId,
    looks: &Looks,
    touched: Option<u16>,
) -> Result<(), AllocError>
    ensures { OnOk result (out.new.items ≡ out.old.items ++ svg id looks.now touched) }
{
    push_svg(out, id, looks, touched)
}

// A picture has its form's tags and no others, whatever a base holds.
fn picture_tags()
    ensures { (id : Id) (rows : List (List Look)) →
        tags_of (picture id rows) ≡ map raw (picture_pieces id rows) }
{
    picture_reads_back();
}

fn page_picture_tags()
    ensures { (id : Id) (rows : List (List Look)) (cell : Option ℕ) →
        tags_of (svg id rows cell) ≡ map raw (svg_pieces id rows cell) }
{
    svg_reads_back();
}

fn safe_characters()
    ensures { (cs : List ℕ) → IsSafe cs }
{
    characters_are_safe();
}

// The HTML file is the definition's, says what is shown and where it is written, and links the ways.
fn pages_of<S: Sink>(
    alloc: Global,
    source: &BaseSource<'_>,
    base: &Base,
    policy: &Policy,
    view: &View,
    sink: &mut S,
) -> Result<PagesStatus, PagesFault>
    requires { (S.seen sink.old).failed ≡ false }
    ensures { IsPagesRun (S.seen sink.old) (S.seen sink.new)
        (record { name = source.now.name.now; lines = source.now.lines.now }) base.now policy.now view.now result }
{
    write_pages(alloc, source, base, policy, view, sink)
}
