//! Laws of what clients ask and are told, over all items and all values. Each is proved as the contract of a function
//! that does nothing.

ghost use Rattle.browse_wire.specs.Laws.{AsksAreRead, OneAsk, UnknownIsTold};
ghost use Rattle.browse_wire.specs.Reports.{ReportsAreRead};
ghost use Rattle.browse_wire.specs.Urls.{UrlsAreRead, OneRootAndPath, BelowIsNotRoot};

/// A URL that is a root and a path is read as these.
pub fn urls_are_read()
    ensures { UrlsAreRead }
{}

/// A URL has one root and one path at most.
pub fn one_root_and_path()
    ensures { OneRootAndPath }
{}

/// A URL that names something behind its root isn't told as the root.
pub fn below_is_not_root()
    ensures { BelowIsNotRoot }
{}

/// An item that the table of commands has for a command is read as that command, but for one with the depth `exclude`.
pub fn asks_are_read()
    ensures { AsksAreRead }
{}

/// An item is one command at most.
pub fn one_ask()
    ensures { OneAsk }
{}

/// A command of another name is refused as such, whatever its parameters are.
pub fn unknown_is_told()
    ensures { UnknownIsTold }
{}

/// An item that the table of reports has for what is reported is read as that.
pub fn reports_are_read()
    ensures { ReportsAreRead }
{}
