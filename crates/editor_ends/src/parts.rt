//! What is shown of one change.
ghost use Rattle.std.specs.Prelude.{◌≡◌, ◌≤◌, true, false, length, IfOk};
ghost use Rattle.std.specs.Option.{option_copied};
ghost use Rattle.node_base.specs.declared.limits.TheConstants.{REVISION};
ghost use Rattle.dump_load.specs.Changes.{is_delete};
ghost use Rattle.editor_ends.specs.Drive.{base_number, opening, dir_calls, file_calls};
ghost use Rattle.editor_ends.specs.Driven.{Drives, StopsAmong};
ghost use Rattle.editor_ends.specs.Fronts.{above};
ghost use Rattle.editor_ends.specs.Parts.{open_parts};

use crate::props::{give_dir, give_file_props};
use crate::text::{give_text, sum_of};
use delta_editor::{Editor, EditorFault};
use dump_load::Change;
use node_base::{Action, Props, RevNo, Source};
use path_tree::Tree;

/// The revision before the one that is shown.
pub fn base_of(trees: &[Tree]) -> Option<RevNo>
    requires { length trees.now ≤ REVISION }
    ensures { result ≡ base_number trees.now }
{
    match trees.split_last() {
        None => None,
        Some((_, earlier)) => Some(RevNo::new(earlier.len() as u16)),
    }
}

fn source_of(source: &Option<Source>) -> Option<&Source>
    ensures { option_copied result ≡ source.now }
{
    source.as_ref()
}

// Opens the file of a change that adds or changes it.
fn open_file<E: Editor>(
    editor: &mut E,
    up: &mut E::Dir,
    trees: &[Tree],
    change: &Change,
) -> Result<E::File, EditorFault>
    requires few { length trees.now ≤ REVISION }
    requires up { E.dir_path up.old ≡ above change.now.path }
    requires stays { is_delete change.now.action ≡ false }
    ensures shown { Drives E.Editor editor.old editor.new (opening trees.now true change.now) result }
    ensures stops { StopsAmong E.Editor editor.old (opening trees.now true change.now) result }
    ensures baton { IfOk result (λ f. E.file_path f ≡ change.now.path) }
    ensures up { E.dir_path up.new ≡ E.dir_path up.old }
    ensures began { E.began editor.new ≡ E.began editor.old }
{
    let base = base_of(trees);
    let source = source_of(&change.source);
    match change.action {
        Action::Modify => editor.open_file(up, &change.path, base),
        Action::Add => editor.add_file(up, &change.path, source),
        Action::Replace => {
            editor.delete_entry(up, &change.path, base)?;
            editor.add_file(up, &change.path, source)
        }
        Action::Delete => unreachable!(),
    }
}

// Opens the directory of a change that adds or changes it.
fn open_dir<E: Editor>(
    editor: &mut E,
    up: &mut E::Dir,
    trees: &[Tree],
    change: &Change,
) -> Result<E::Dir, EditorFault>
    requires few { length trees.now ≤ REVISION }
    requires up { E.dir_path up.old ≡ above change.now.path }
    requires stays { is_delete change.now.action ≡ false }
    ensures shown { Drives E.Editor editor.old editor.new (opening trees.now false change.now) result }
    ensures stops { StopsAmong E.Editor editor.old (opening trees.now false change.now) result }
    ensures baton { IfOk result (λ d. E.dir_path d ≡ change.now.path) }
    ensures up { E.dir_path up.new ≡ E.dir_path up.old }
    ensures began { E.began editor.new ≡ E.began editor.old }
{
    let base = base_of(trees);
    let source = source_of(&change.source);
    match change.action {
        Action::Modify => editor.open_dir(up, &change.path, base),
        Action::Add => editor.add_dir(up, &change.path, source),
        Action::Replace => {
            editor.delete_entry(up, &change.path, base)?;
            editor.add_dir(up, &change.path, source)
        }
        Action::Delete => unreachable!(),
    }
}

// What a change gives an open file.
fn give_file<E: Editor>(
    editor: &mut E,
    file: &mut E::File,
    change: &Change,
    old: &Props,
) -> Result<(), EditorFault>
    requires { E.file_path file.old ≡ change.now.path }
    ensures shown { Drives E.Editor editor.old editor.new (open_parts change.now old.now) result }
    ensures stops { StopsAmong E.Editor editor.old (open_parts change.now old.now) result }
    ensures baton { E.file_path file.new ≡ E.file_path file.old }
    ensures began { E.began editor.new ≡ E.began editor.old }
{
    give_file_props(editor, file, change, old)?;
    give_text(editor, file, change)
}

/// Shows a file that a change adds or changes, from its opening to its close.
pub fn show_file<E: Editor>(
    editor: &mut E,
    up: &mut E::Dir,
    trees: &[Tree],
    change: &Change,
    old: &Props,
) -> Result<(), EditorFault>
    requires few { length trees.now ≤ REVISION }
    requires up { E.dir_path up.old ≡ above change.now.path }
    requires stays { is_delete change.now.action ≡ false }
    ensures shown { Drives E.Editor editor.old editor.new (file_calls trees.now change.now old.now) result }
    ensures stops { StopsAmong E.Editor editor.old (file_calls trees.now change.now old.now) result }
    ensures up { E.dir_path up.new ≡ E.dir_path up.old }
    ensures began { E.began editor.new ≡ E.began editor.old }
{
    let mut file = open_file(editor, up, trees, change)?;
    match give_file(editor, &mut file, change, old) {
        Ok(()) => editor.close_file(file, sum_of(&change.text)),
        Err(fault) => {
            editor.discard_file(file);
            Err(fault)
        }
    }
}

/// Shows a directory that a change adds or changes. It stays open.
pub fn show_dir<E: Editor>(
    editor: &mut E,
    up: &mut E::Dir,
    trees: &[Tree],
    change: &Change,
    old: &Props,
) -> Result<E::Dir, EditorFault>
    requires few { length trees.now ≤ REVISION }
    requires up { E.dir_path up.old ≡ above change.now.path }
    requires stays { is_delete change.now.action ≡ false }
    ensures shown { Drives E.Editor editor.old editor.new (dir_calls trees.now change.now old.now) result }
    ensures stops { StopsAmong E.Editor editor.old (dir_calls trees.now change.now old.now) result }
    ensures baton { IfOk result (λ d. E.dir_path d ≡ change.now.path) }
    ensures up { E.dir_path up.new ≡ E.dir_path up.old }
    ensures began { E.began editor.new ≡ E.began editor.old }
{
    let mut dir = open_dir(editor, up, trees, change)?;
    match give_dir(editor, &mut dir, change, old) {
        Ok(()) => Ok(dir),
        Err(fault) => {
            editor.discard_dir(dir);
            Err(fault)
        }
    }
}
