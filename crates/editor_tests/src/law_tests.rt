//! The laws of windows and of edits, by the names that `ra_edit` gives them.

use ra_edit::fault::WindowFault;
use ra_edit::law;
use std::rt::HostRuntime;

#[test]
fn laws_are_called(rt: HostRuntime) {
    law::pieces_join();
    law::texts_are_read();
    law::one_text();
    law::written_is_text();
    law::written_is_read();
    law::read_is_text();
    law::written_is_edit();
    law::one_edit();
    law::ends_once();
    law::written_comes();
    law::written_is_taken();
    law::written_is_received();
    law::written_is_not_refused::<delta_editor::Recorder>();
    law::says_some_command();
    law::nothing_due();
    law::deltas_are_whole::<editor_ends::BuildEditor>();
    assert!(rt; WindowFault::CopyWindow.number() == 45);
}
