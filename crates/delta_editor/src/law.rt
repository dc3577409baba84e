//! Laws of calls: each function does nothing, and its contract is the law.
ghost use Rattle.delta_editor.specs.Laws.{CallsJoin, ClosesChangeNothing, CopiedIsTheSource, DeletedIsGone};
ghost use Rattle.delta_editor.specs.Laws.{ElsewhereStays, NestedIsEdit, OneNameChanges, PiecesMakeTheText};
ghost use Rattle.delta_editor.specs.Laws.{TouchedAreNumbered};

/// Calls have the effect of the first of them, and then of the rest.
pub fn calls_join()
    ensures { CallsJoin }
{}

/// Without targets, ends of texts and what closes, calls have the same effect.
pub fn closes_change_nothing()
    ensures { ClosesChangeNothing }
{}

/// A text that is given in pieces is the pieces joined, however it is cut.
pub fn pieces_make_the_text()
    ensures { PiecesMakeTheText }
{}

/// A property call changes one name.
pub fn one_name_changes()
    ensures { OneNameChanges }
{}

/// What is opened or added, and what is above a path that is opened, added or deleted, gets the number of the revision
/// that is shown.
pub fn touched_are_numbered()
    ensures { TouchedAreNumbered }
{}

/// Nothing is left of what is deleted.
pub fn deleted_is_gone()
    ensures { DeletedIsGone }
{}

/// Below a directory that is added as a copy stands what stands below its source, with its numbers.
pub fn copied_is_the_source()
    ensures { CopiedIsTheSource }
{}

/// Away from its path a call changes nothing.
pub fn elsewhere_stays()
    ensures { ElsewhereStays }
{}

/// Calls keep the nesting just where they are an edit of the grammar: each directory and file from its opening to its
/// close.
pub fn nested_is_edit()
    ensures { NestedIsEdit }
{}
