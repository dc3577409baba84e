//! The calls that give properties.
ghost use Rattle.std.specs.Prelude.{◌≡◌, ◌++◌};
ghost use Rattle.delta_editor.specs.declared.call.Call.TheVariants as call;
ghost use Rattle.editor_ends.specs.Driven.{Drives, StopsAmong};
ghost use Rattle.editor_ends.specs.Parts.{prop_calls, dir_parts, prop_parts, removals_between, settings_of};

use delta_editor::{Editor, EditorFault};
use dump_load::Change;
use node_base::Props;

// Removes the names of the old properties of a directory that the new ones lack.
fn unset_dir<E: Editor>(
    editor: &mut E,
    dir: &mut E::Dir,
    old: &Props,
    new: &Props,
) -> Result<(), EditorFault>
    ensures shown { Drives E.Editor editor.old editor.new (removals_between
        (call.DirProp (E.dir_path dir.old)) old.now new.now) result }
    ensures stops { StopsAmong E.Editor editor.old (removals_between
        (call.DirProp (E.dir_path dir.old)) old.now new.now) result }
    ensures baton { E.dir_path dir.new ≡ E.dir_path dir.old }
    ensures began { E.began editor.new ≡ E.began editor.old }
{
    let entries = old.entries();
    for (name, _) in entries {
        if new.contains(name.as_bytes()) {
            continue;
        }
        editor.dir_prop(dir, name, None)?;
    }
    Ok(())
}

// Gives a directory each of the new properties.
fn set_dir<E: Editor>(editor: &mut E, dir: &mut E::Dir, new: &Props) -> Result<(), EditorFault>
    ensures shown { Drives E.Editor editor.old editor.new (settings_of (call.DirProp (E.dir_path dir.old)) new.now)
        result }
    ensures stops { StopsAmong E.Editor editor.old (settings_of (call.DirProp (E.dir_path dir.old)) new.now) result }
    ensures baton { E.dir_path dir.new ≡ E.dir_path dir.old }
    ensures began { E.began editor.new ≡ E.began editor.old }
{
    let entries = new.entries();
    for (name, value) in entries {
        editor.dir_prop(dir, name, Some(value.as_slice()))?;
    }
    Ok(())
}

// Removes the names of the old properties of a file that the new ones lack.
fn unset_file<E: Editor>(
    editor: &mut E,
    file: &mut E::File,
    old: &Props,
    new: &Props,
) -> Result<(), EditorFault>
    ensures shown { Drives E.Editor editor.old editor.new (removals_between
        (call.FileProp (E.file_path file.old)) old.now new.now) result }
    ensures stops { StopsAmong E.Editor editor.old (removals_between
        (call.FileProp (E.file_path file.old)) old.now new.now) result }
    ensures baton { E.file_path file.new ≡ E.file_path file.old }
    ensures began { E.began editor.new ≡ E.began editor.old }
{
    let entries = old.entries();
    for (name, _) in entries {
        if new.contains(name.as_bytes()) {
            continue;
        }
        editor.file_prop(file, name, None)?;
    }
    Ok(())
}

// Gives a file each of the new properties.
fn set_file<E: Editor>(editor: &mut E, file: &mut E::File, new: &Props) -> Result<(), EditorFault>
    ensures shown { Drives E.Editor editor.old editor.new (settings_of (call.FileProp (E.file_path file.old)) new.now)
        result }
    ensures stops { StopsAmong E.Editor editor.old (settings_of (call.FileProp (E.file_path file.old)) new.now) result }
    ensures baton { E.file_path file.new ≡ E.file_path file.old }
    ensures began { E.began editor.new ≡ E.began editor.old }
{
    let entries = new.entries();
    for (name, value) in entries {
        editor.file_prop(file, name, Some(value.as_slice()))?;
    }
    Ok(())
}

// Gives a directory new properties in the place of the old ones.
fn reset_dir<E: Editor>(
    editor: &mut E,
    dir: &mut E::Dir,
    old: &Props,
    new: &Props,
) -> Result<(), EditorFault>
    ensures shown { Drives E.Editor editor.old editor.new (prop_calls
        (call.DirProp (E.dir_path dir.old)) old.now new.now) result }
    ensures stops { StopsAmong E.Editor editor.old (prop_calls (call.DirProp (E.dir_path dir.old)) old.now new.now)
        result }
    ensures baton { E.dir_path dir.new ≡ E.dir_path dir.old }
    ensures began { E.began editor.new ≡ E.began editor.old }
{
    unset_dir(editor, dir, old, new)?;
    set_dir(editor, dir, new)
}

// Gives a file new properties in the place of the old ones.
fn reset_file<E: Editor>(
    editor: &mut E,
    file: &mut E::File,
    old: &Props,
    new: &Props,
) -> Result<(), EditorFault>
    ensures shown { Drives E.Editor editor.old editor.new (prop_calls
        (call.FileProp (E.file_path file.old)) old.now new.now) result }
    ensures stops { StopsAmong E.Editor editor.old (prop_calls (call.FileProp (E.file_path file.old)) old.now new.now)
        result }
    ensures baton { E.file_path file.new ≡ E.file_path file.old }
    ensures began { E.began editor.new ≡ E.began editor.old }
{
    unset_file(editor, file, old, new)?;
    set_file(editor, file, new)
}

/// Shows what a change gives an open directory, whose properties so far are the old ones.
pub fn give_dir<E: Editor>(
    editor: &mut E,
    dir: &mut E::Dir,
    change: &Change,
    old: &Props,
) -> Result<(), EditorFault>
    requires { E.dir_path dir.old ≡ change.now.path }
    ensures shown { Drives E.Editor editor.old editor.new (dir_parts change.now old.now) result }
    ensures stops { StopsAmong E.Editor editor.old (dir_parts change.now old.now) result }
    ensures baton { E.dir_path dir.new ≡ E.dir_path dir.old }
    ensures began { E.began editor.new ≡ E.began editor.old }
{
    match &change.props {
        None => Ok(()),
        Some(new) => reset_dir(editor, dir, old, new),
    }
}

/// Shows the properties that a change gives an open file, whose properties so far are the old ones.
pub fn give_file_props<E: Editor>(
    editor: &mut E,
    file: &mut E::File,
    change: &Change,
    old: &Props,
) -> Result<(), EditorFault>
    requires { E.file_path file.old ≡ change.now.path }
    ensures shown { Drives E.Editor editor.old editor.new (prop_parts change.now old.now) result }
    ensures stops { StopsAmong E.Editor editor.old (prop_parts change.now old.now) result }
    ensures baton { E.file_path file.new ≡ E.file_path file.old }
    ensures began { E.began editor.new ≡ E.began editor.old }
{
    match &change.props {
        None => Ok(()),
        Some(new) => reset_file(editor, file, old, new),
    }
}
