//! Tests of `byte_streams`, `ra_item`, `ra_wire`, `browse_wire` and `svndiff` through their public items: streams that
//! fail and are counted; openings and drives with their fronts and changed bytes, limits, refusals, and growths that are
//! refused; greetings, commands and answers as Subversion's clients and servers spell them; what its clients ask and
//! report, what svnserve tells them, and URLs; texts in windows and deltas spelled out by hand, cut and changed anyhow.
#![tactic(auto)]

#[cfg(test)]
mod answer_tests;
#[cfg(test)]
mod ask_tests;
#[cfg(test)]
mod asked;
#[cfg(test)]
mod checked;
#[cfg(test)]
mod command_tests;
#[cfg(test)]
mod delta_tests;
#[cfg(test)]
mod growth_tests;
#[cfg(test)]
mod helpers_for_tests;
#[cfg(test)]
mod opening_tests;
#[cfg(test)]
mod sessions;
#[cfg(test)]
mod stream_tests;
#[cfg(test)]
mod tests;
#[cfg(test)]
mod told_tests;
#[cfg(test)]
mod url_tests;
#[cfg(test)]
mod window_tests;
