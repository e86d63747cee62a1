//! What is read of the text of a base that is made of screens, and what the base shows.

ghost use Rattle.std.specs.Prelude.{◌≡◌, ◌≤◌, ◌<◌, ◌∷◌, ℕ, Bool, List, All, Option, Ok, Some, length};
ghost use Rattle.frame_records.specs.declared.limits.TheConstants.{MOST_LISTED};
ghost use Rattle.screen_files.specs.declared.file.FileFrames.{FileFrames};
ghost use Rattle.screen_files.specs.declared.file.FileKind.{FileKind};
ghost use Rattle.screen_files.specs.declared.filed.Filed.{Filed};
ghost use Rattle.screen_files.specs.Album.{IsBaseText, base_text};
ghost use Rattle.screen_files.specs.Files.{AreFileFrames, found_in};
ghost use Rattle.screen_files.specs.Settling.{IsSettled, SettledView};
ghost use Rattle.toml.specs.Parse.{parse_document};
ghost use Rattle.page_ids.specs.Ids.{Id};
ghost use Rattle.import_laws.specs.Imported.{IsAsked, IsFiled, members_of};
ghost use Rattle.import_laws.specs.Bases.{MeansBase, screen_base};
ghost use Rattle.import_laws.specs.Shown.{ShowsScreen};

use import_laws::{files_are_filed, imports_are_bases, imports_are_read, imports_show_screens};

// What every frame of a file has, and so every frame of which a base is made.
fn filed()
    ensures file { (kind : FileKind) (path : List ℕ) (file : ℕ) (bytes : List ℕ) (found : FileFrames) →
        All (λ b. b < 256) bytes → AreFileFrames (found_in kind path file bytes) (Ok found) →
        All IsFiled found.frames.frames }
    ensures settled { (filed : List Filed) (settled : SettledView) → IsSettled filed settled → All IsFiled filed →
        All IsFiled settled.frames }
    ensures few { (filed : List Filed) (settled : SettledView) → IsSettled filed settled →
        length settled.frames ≤ length filed }
{
    files_are_filed();
}

// TOML reads the text of the base as just the members of the frames.
fn read()
    ensures { (asked : Option ℕ) (known : List Id) (frames : List Filed) → IsAsked asked → All IsFiled frames →
        parse_document (base_text asked known frames) ≡ Some (members_of asked known frames) }
{
    imports_are_read();
}

// The text means the base of just the frames.
fn means()
    ensures { (asked : Option ℕ) (guessed : Bool) (f : Filed) (rest : List Filed) (text : List ℕ) →
        IsAsked asked → All IsFiled (f ∷ rest) → length (f ∷ rest) ≤ MOST_LISTED →
        (made : IsBaseText asked guessed (f ∷ rest) text) → MeansBase text (screen_base asked made.known f rest) }
{
    imports_are_bases();
}

// Each screen is shown by its frame.
fn shows()
    ensures { (asked : Option ℕ) (guessed : Bool) (f : Filed) (rest : List Filed) (text : List ℕ) →
        All IsFiled (f ∷ rest) → (made : IsBaseText asked guessed (f ∷ rest) text) →
        All (ShowsScreen (screen_base asked made.known f rest)) (f ∷ rest) }
{
    imports_show_screens();
}
